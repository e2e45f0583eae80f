//! What logs show.

use std::alloc::{AllocError, Global};

/// The last value, in hexadecimal digits, that was got at an address, of ten digits, by accesses of a
/// kind, of one strand.
pub fn last_got<'a>(log: &'a str, strand: &str, kind: &str, addr: &str) -> Option<&'a str> {
    let mut last = None;
    for line in log.lines() {
        let mut fields = line.split(" ");
        let is_its = fields.next() == Some("i")
            && fields.next() == Some(strand)
            && fields.nth(1) == Some(kind)
            && fields.next() == Some(addr);
        if is_its {
            last = fields.nth(1);
        }
    }
    last
}

/// What the last atomic of the memory order that wrote put, in hexadecimal digits.
pub fn last_put<'a>(alloc: Global, log: &'a str) -> Result<Option<&'a str>, AllocError> {
    let mut writes = Vec::new(alloc);
    for line in log.lines() {
        if let Some((head, fields)) = line.split_once(" atomic ") {
            let put = fields.split(" ").nth(3).unwrap_or("-");
            if put != "-" {
                writes.push((head.strip_prefix("i ").unwrap_or(""), put))?;
            }
        }
    }
    let mut last = None;
    for line in log.lines() {
        if let Some(place) = line.strip_prefix("o ") {
            if let Some(number) = writes.iter().position(|(at, _)| *at == place) {
                last = writes.get(number).map(|(_, put)| *put);
            }
        }
    }
    Ok(last)
}
