// Takes lines of text from standard input, each a call of the library, and answers each with a line on standard output.
#![tactic(auto)]

mod act;
mod answer;
mod checking;
mod hearing;

ghost use Rattle.desk_account.specs.Desk.{Ready};

use hearing::{Failed, Talk, read_more};
use std::io::Read;

// Hears the input to its end, and prints the answers before it waits for more.
fn hear_all(
    rt: &(impl Print + Eprint),
    input: &mut impl Read,
    chunk: &mut [u8],
    talk: &mut Talk,
) -> Result<(), Failed>
    requires { Ready talk.old.desk }
{
    for _ in 0..u64::MAX {
        let count = read_more(rt, input, chunk)?;
        if count == 0 {
            return talk.end(rt);
        }
        talk.hear(rt, chunk.get(..count).unwrap_or(&[]))?;
    }
    Err(Failed)
}

// The longest line has two days of records, and more than the words before them.
const LINE: usize = 320_000;

fn main(rt: HostRuntime) {
    let mut chunk = [0; 65_536];
    let mut heard = [0; LINE];
    let mut bytes = [0; LINE];
    // Room for the longest answer behind those that wait.
    let mut waiting = [0; 400_000];
    let mut talk = Talk::new(&mut heard, &mut bytes, &mut waiting);
    let heard_all = hear_all(&rt, &mut rt.stdin(), &mut chunk, &mut talk);
    if launcher::asked(&rt, b"--status") {
        launcher::tell(&rt, if heard_all.is_ok() { 0 } else { 2 });
    }
}
