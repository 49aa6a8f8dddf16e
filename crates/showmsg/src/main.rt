// Reads a message from standard input and prints what `text::show::show` writes: a line for each range, the line of a refusal, or `too long`.
// Whoever starts it by hand on a terminal is told so first, on standard error.
#![tactic(auto)]

use std::alloc::{AllocError, Global};
use std::env::FillError;
use std::io;
use std::io::{IsTerminal, Read};
use std::rt::Env;
use text::show::{ROOM, show};

// What standard input has, up to one byte more than a message may have here.
fn input(rt: &(impl Input + AllocGlobal)) -> io::Result<Vec<u8>> {
    let mut message = Vec::new(rt.alloc());
    rt.reader().take(65537).read_to_end(&mut message)?;
    Ok(message)
}

fn output(alloc: Global) -> Result<Vec<u8>, AllocError> {
    vec![in alloc; 0; ROOM]
}

fn show_input(rt: &(impl Input + Print + AllocGlobal)) -> io::Result<()> {
    let message = input(rt)?;
    let mut shown = output(rt.alloc())?;
    let k = show(&message, &mut shown);
    rt.write_all(&shown[..k])
}

fn help(out: &impl Print) -> io::Result<()> {
    out.write_all(b"usage: showmsg < FILE\n\n")?;
    out.write_all(
        b"Reads a message of the Negentropy Protocol V1 (at most 65,536 bytes) from standard input and prints a line for\n",
    )?;
    out.write_all(
        b"each of its ranges: the upper bound's time or inf; its prefix or -; skip, fingerprint or ids; then -, the\n",
    )?;
    out.write_all(
        b"fingerprint or the number of ids. For other bytes it prints refused and the number of the refusal, or too long.\n\n",
    )?;
    out.write_all(b"  -h, --help   print this\n")?;
    out.write_all(b"  --version    print the version\n")
}

// What the argument asks for. One that the program does not know is told on standard error, and that one may be closed.
fn answer(out: &impl Print, err: &impl Print, argument: &[u8]) -> io::Result<()> {
    match argument {
        b"--help" | b"-h" => help(out),
        b"--version" => out.write_all(b"showmsg 0.1.0\n"),
        _ => {
            let _ = err.write_all(b"showmsg: unknown argument '");
            let _ = err.write_all(argument);
            let _ = err.write_all(
                b"'; it reads the message from standard input, as in showmsg < FILE, and knows --help and --version\n",
            );
            Ok(())
        }
    }
}

fn main(rt: HostRuntime) -> io::Result<()> {
    let mut argument = [0u8; 4096];
    match rt.arg(1, &mut argument) {
        Ok(n) => return answer(&rt.stdout(), &rt.stderr(), &argument[..n]),
        Err(FillError::TooLong) => return answer(&rt.stdout(), &rt.stderr(), b""),
        Err(FillError::NotPresent) => {}
    }
    if rt.stdin().is_terminal() {
        let _ = rt.stderr().write_all(
            b"showmsg: reads a message (at most 65,536 bytes) from standard input, as in showmsg < FILE\n",
        );
    }
    show_input(&rt)
}
