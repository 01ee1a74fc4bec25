// What was expected where a line is no call.
use crate::call::{FORMS, Form};
use crate::take::Misfit;
use answers::Answers;
use std::fmt::Write;

pub fn too_long(out: &mut Answers) {
    let _ = write!(out, "what? expected a line of at most 320000 characters\n");
}

// The names of all calls.
pub fn a_call(out: &mut Answers) {
    let _ = write!(out, "what? expected a call:");
    for form in &FORMS {
        let _ = write!(out, " {}", form.name);
    }
    let _ = write!(out, "\n");
}

// The form of a call, and which of its words was not of its kind.
pub fn form(out: &mut Answers, form: Form, misfit: Misfit) {
    let _ = match misfit {
        Misfit::Form => write!(out, "what? expected {form}\n"),
        Misfit::Wrong(word) => write!(out, "what? expected {form}: {word}\n"),
    };
}
