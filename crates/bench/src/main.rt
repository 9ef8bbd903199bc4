// The bench: lists the kit of standard input on standard output. Where it cannot read or write it says so on standard
// error, and what it could not read it does not list.
#![tactic(auto)]

use std::io;

// What failed, on standard error. Where that cannot be written either, nothing is left to say it on.
fn fail(rt: &impl Eprint, what: &str, error: io::Error) {
    let _ = eprintln!(rt; "bench: {what}: {error}");
}

fn list(rt: &(impl Print + Eprint), kit: &[u8]) {
    // The longest text there is.
    let mut text = [0u8; 74880];
    let bytes = listing::list_kit(kit, &mut text);
    if let Err(error) = rt.write_all(&text[..bytes]) {
        fail(rt, "standard output", error);
    }
}

fn main(rt: HostRuntime) {
    // One word more than the largest kit, so that bytes past 65,536 are noticed.
    let mut room = [0u8; 65540];
    match reading::fill(&mut rt.stdin(), &mut room) {
        (many, Ok(())) => list(&rt, &room[..many]),
        (_, Err(error)) => fail(&rt, "standard input", error),
    }
}
