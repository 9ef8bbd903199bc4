// Runs the conformance kits: for each kit file that the arguments name, a line with its name and then its listing.
#![tactic(auto)]

use std::env::{Env, FillError};
use std::fs::Files;
use std::io::Read;
use std::{fs, str};

// On standard output. What cannot be written is left out, and the next that can be follows.
// One line, so each program has its own.
fn put(rt: &impl Print, bytes: &[u8]) {
    let _ = rt.write_all(bytes);
}

fn list_kit(rt: &impl Print, file: &mut impl Read) {
    let mut kit = [0u8; 65540];
    // What was read up to a failure is listed.
    let (many, _) = reading::fill(file, &mut kit);
    let mut text = [0u8; 74880];
    let bytes = listing::list_kit(&kit[..many], &mut text);
    put(rt, &text[..bytes]);
}

// The file's name, without the `.kit` at its end.
fn put_name(rt: &impl Print, path: &[u8]) {
    if let Some((name, _)) = path.split_last_chunk::<4>() {
        put(rt, name);
    }
    put(rt, b"\n");
}

fn list_file(rt: &(impl Files + Print + Eprint), path: &str) {
    match fs::open(rt, path) {
        Ok(mut file) => {
            put_name(rt, path.as_bytes());
            list_kit(rt, &mut file);
        }
        Err(error) => {
            let _ = eprintln!(rt; "{path}: {error}");
        }
    }
}

fn list_path(rt: &(impl Files + Print + Eprint), path: &[u8]) {
    match str::from_utf8(path) {
        Ok(path) => list_file(rt, path),
        Err(error) => {
            let _ = eprintln!(rt; "a name that is no text: {error}");
        }
    }
}

// False where there is no argument i.
fn list_argument(rt: &(impl Env + Files + Print + Eprint), i: usize) -> bool {
    let mut path = [0u8; 4096];
    match rt.arg(i, &mut path) {
        Ok(n) => list_path(rt, &path[..n]),
        // No file has a name that long, nor an empty one.
        Err(FillError::TooLong) => list_file(rt, ""),
        Err(FillError::NotPresent) => return false,
    }
    true
}

fn main(rt: HostRuntime) {
    for i in 1..usize::MAX {
        if !list_argument(&rt, i) {
            break;
        }
    }
}
