// Cases of the check of a certificate.
use crate::step_cases::list;
use case_input::{length, word};
use certificate::Fault;
use std::io;
use words::Config;

// A certificate: its length, and as many marks.
fn marks(rt: &impl Input, certificate: &mut [u8]) -> io::Result<usize> {
    let n = length(rt)?;
    for at in 0..n {
        let mark = (word(rt)? % 256) as u8;
        if at < certificate.len() {
            certificate[at] = mark;
        }
    }
    Ok(n)
}

// An image and a certificate: prints document 01's number, the address and the rule that are named, and the level at address 0.
pub fn check_case(rt: &(impl Input + Print), c: Config) -> io::Result<()> {
    let mut image = [0u32; 256];
    let words = list(rt, &mut image)?.min(image.len());
    let mut certificate = [0u8; 256];
    let marked = marks(rt, &mut certificate)?.min(certificate.len());
    let r = certificate::check(c, &image[..words], &certificate[..marked]);
    print!(rt; "check")?;
    match r {
        Ok(level) => println!(rt; " 0 0 0 {level:x}"),
        Err(Fault::Broken { address, rule }) => {
            println!(rt; " 11 {address:x} {:x} 0", rule.number())
        }
        Err(why) => println!(rt; " {:x}", why.number()),
    }
}
