// What a call does whose line fits its form.
ghost use Rattle.account.specs.Kept.{Kept};
ghost use Rattle.desk_account.specs.Desk.{Ready};

use crate::checking;
use account::Account;
use answers::Answers;
use desk_account::{adding, no_account, opening};
use desk_records::of_records;
use forms::call::{Call, Form, Question};
use forms::take::{Given, Misfit, first_mut, take};

fn answer_to(question: Question, account: Account, given: &Given, out: &mut Answers)
    requires { Kept account }
{
    match question {
        Question::Check => checking::check(account, given.bytes(0), out),
        Question::Total => sheet::put_total(&mut out.page, account),
        Question::Month => desk_year::month(account, given.number(0), out),
        Question::Counts => desk_year::counts(account, out),
        Question::Close => desk_year::close(account, out),
        Question::Chart => desk_year::chart(account, out),
    }
}

fn ask(question: Question, desk: Option<Account>, given: &Given, out: &mut Answers)
    requires { Ready desk }
{
    match desk {
        Some(account) => answer_to(question, account, given, out),
        None => no_account(out),
    }
}

// Takes the call's words from what its line has behind its name; those of `open` go on with its list.
pub(crate) fn act(
    desk: &mut Option<Account>,
    form: Form,
    line: &[u8],
    bytes: &mut [u8],
    out: &mut Answers,
) -> Result<(), Misfit>
    requires { Ready desk.old }
    ensures { Ready desk.new }
{
    let (numbers, rest) = take(form.words, line, bytes).map_err(|(misfit, _)| misfit)?;
    if form.call != Call::Open && !rest.is_empty() {
        return Err(Misfit::Form);
    }
    let given = Given { numbers, bytes };
    match form.call {
        Call::Open => opening::open(desk, form, given.bytes(0), rest, out),
        Call::Add => adding::add(desk, given.bytes(0), out),
        Call::Fill => adding::fill(desk, numbers[0], first_mut(bytes, numbers[1]), out),
        Call::Single => desk_single::single(&given, out),
        Call::Record(call) => of_records(call, &given, out),
        Call::Ask(question) => ask(question, *desk, &given, out),
    }
    Ok(())
}
