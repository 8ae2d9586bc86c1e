// Standard output, for `write!`. That its bytes go there, once each and in order, is no part of a promise.
use std::fmt;

#[derive(Clone, Copy)]
pub struct Stdout;

impl fmt::Write for Stdout {
    fn write_str(&mut self, s: &str) -> fmt::Result {
        if io::write_all(1, s.as_bytes()) {
            Ok(())
        } else {
            Err(fmt::Error)
        }
    }
}
