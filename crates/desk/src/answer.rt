// The answer to a line.
ghost use Rattle.desk_account.specs.Desk.{Ready};

use crate::act::act;
use account::Account;
use answers::Answers;
use forms::call::form_of;
use forms::expected;

// A line that is neither empty nor begins with #.
fn call(desk: &mut Option<Account>, line: &[u8], bytes: &mut [u8], out: &mut Answers)
    requires { Ready desk.old }
    ensures { Ready desk.new }
{
    let (name, rest) = line.split_at(words::end_of_word(line, 0));
    let Some(form) = form_of(name) else {
        expected::a_call(out);
        return;
    };
    if let Err(misfit) = act(desk, form, rest, bytes, out) {
        expected::form(out, form, misfit);
    }
}

// The answer to a line, which may be too long: a comment is echoed, an empty line is answered with one.
pub(crate) fn answer(
    desk: &mut Option<Account>,
    line: Option<&[u8]>,
    bytes: &mut [u8],
    out: &mut Answers,
)
    requires { Ready desk.old }
    ensures { Ready desk.new }
{
    let Some(line) = line else {
        expected::too_long(out);
        return;
    };
    let line = line.strip_suffix(b"\r").unwrap_or(line);
    if line.is_empty() || line.starts_with(b"#") {
        out.text(line);
        out.text(b"\n");
    } else {
        call(desk, line, bytes, out);
    }
}
