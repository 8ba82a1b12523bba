//! Scans the texts on its input, which lines of `====` part, and prints for each the words and the text that `print` writes of them, or its refusal.
#![tactic(auto)]

use anyhow::Error;
use mv_asmtext::{Code, print, scan};
use mv_num::list::List;
use std::io;

fn show_words(rt: &HostRuntime, name: &str, words: &List<u32>) -> io::Result<()> {
    print!(rt; "{name}")?;
    for word in words.as_slice() {
        print!(rt; " {word:08x}")?;
    }
    println!(rt; "")
}

fn show(rt: &HostRuntime, code: &Code) -> Result<(), Error> {
    println!(rt; "entry {:08x}", code.entry)?;
    show_words(rt, "text", &code.text)?;
    show_words(rt, "data", &code.globals)?;
    let text = String::from_utf8(print(rt.alloc(), code)?)?;
    print!(rt; "{text}")?;
    Ok(())
}

fn main(rt: HostRuntime) -> Result<(), Error> {
    let alloc = rt.alloc();
    let cases = io::read_to_string(alloc, rt.stdin())?;
    let mut is_first = true;
    for case in cases.as_str().split("====\n") {
        if !is_first {
            println!(rt; "----")?;
        }
        is_first = false;
        match scan(alloc, case.as_bytes()) {
            Ok(code) => show(&rt, &code)?,
            Err(e) => println!(rt; "{e}")?,
        }
    }
    Ok(())
}
