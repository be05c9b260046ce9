// The program: reads a plan text from standard input, and prints its outcome, with the latest times unless its first word asks for the earliest. Where the
// text cannot be read whole it prints nothing, and says why on standard error; so it does where the outcome cannot be written whole.
#![tactic(auto)]

use scope::Side;
use std::fs::{File, OpenFile};
use std::io::{ErrorKind, Write};
use std::rt::{Env, Files};
use std::{fs, io};

// One byte more than a text may have: a longer one is refused for its length, whatever the rest of it says.
const ENOUGH: usize = scope::MOST_BYTES + 1;

// Standard output by its name.
const OUTPUT: &str = "/dev/stdout";

// The side that the first word asks for. One that is missing, or longer than each that asks for something, comes as the empty word.
fn side_asked(rt: &impl Env) -> Side {
    let mut word = [0u8; asked::LONGEST];
    let n = rt.arg(1, &mut word).unwrap_or(0);
    asked::side_of(&word[..n])
}

// An error's form without the number that stands behind the system's words.
fn words_of(form: &str) -> &str {
    form.split_once(" (os error ")
        .map_or(form, |(words, _)| words)
}

// Says on standard error why a stream failed. Where that cannot be written either, nobody is left to tell.
fn fail(rt: &(impl Eprint + AllocGlobal), stream: &str, why: io::Error) {
    let _ = match format!(in rt.alloc(); "{why}") {
        Ok(form) => eprintln!(rt; "{stream}: {}", words_of(&form)),
        Err(_) => eprintln!(rt; "{stream}: {why}"),
    };
}

// What a file's disk says once all is written. A file that is on none has nothing to say.
fn said_of(disk: io::Result<()>) -> io::Result<()> {
    disk.or_else(|why| match why.kind() {
        ErrorKind::InvalidInput | ErrorKind::ReadOnlyFilesystem | ErrorKind::Unsupported => Ok(()),
        _ => Err(why),
    })
}

// A disk may say only later that it is full: where the output is a file, its answer is waited for. One that cannot be opened again is not asked.
fn settled(rt: &impl Files) -> io::Result<()> {
    if !fs::metadata(rt, OUTPUT).is_ok_and(|found| found.is_file()) {
        return Ok(());
    }
    let Ok(file) = File::options().write(true).open(rt, OUTPUT) else {
        return Ok(());
    };
    said_of(file.sync_all())
}

// Writes the outcome whole.
fn put(rt: &(impl Print + Files), form: &[u8]) -> io::Result<()> {
    io::writer(rt).write_all(form)?;
    settled(rt)
}

// The outcome of a text goes to standard output.
fn print(rt: &HostRuntime, text: &[u8], side: Side) {
    let mut out = [0u8; forms::AREA];
    let m = report::answer(text, side, &mut out);
    if let Err(why) = put(rt, &out[..m]) {
        fail(rt, "standard output", why);
    }
}

fn main(rt: HostRuntime) {
    let mut text = [0u8; ENOUGH];
    match intake::read_text(&mut rt.stdin(), &mut text) {
        Ok(n) => print(&rt, &text[..n], side_asked(&rt)),
        Err(why) => fail(&rt, "standard input", why),
    }
}
