// The calls of the desk that tell what an account comes to: `month`, `counts`, `close` and `chart`.
#![tactic(auto)]

ghost use Rattle.account.specs.Kept.{Kept};

use account::Account;
use answers::Answers;

pub fn month(account: Account, month: u32, out: &mut Answers)
    requires { Kept account }
{
    match by_month::month(account, month) {
        Ok(_) => month_line::put_month(&mut out.page, account, month),
        Err(refusal) => out.refused(refusal),
    }
}

pub fn counts(account: Account, out: &mut Answers)
    requires { Kept account }
{
    out.text(b"counts");
    out.each(&account.counts());
    out.text(b"\n");
}

pub fn close(account: Account, out: &mut Answers)
    requires { Kept account }
{
    match account.close() {
        Ok(_) => sheet::put_year(&mut out.page, account),
        Err(refusal) => out.refused(refusal),
    }
}

// Of what is no number, 0; a chart point never is that.
fn bits_of(x: f64) -> u64 {
    if x.is_nan() { 0 } else { x.to_bits() }
}

pub fn chart(account: Account, out: &mut Answers)
    requires { Kept account }
{
    let point = account.chart();
    out.text(b"chart ");
    out.bits(bits_of(point.fed));
    out.text(b" ");
    out.bits(bits_of(point.co2e));
    out.text(b"\n");
}
