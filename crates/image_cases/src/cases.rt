// Cases of loading and storing.
use crate::buffers::WORD_BYTES;
use image::Refusal;
use std::io;
use words::Config;

fn put_config(rt: &impl Print, c: Config) -> io::Result<()> {
    let numbers = [
        c.imwidth, c.imsize, c.regwidth, c.regsize, c.rmsize, c.pcstack, c.dmsize, c.dmpipe,
        c.alulevel, c.alumult, c.aluspr, c.iopif, c.ioprmw, c.yamclk, c.yamsreg3, c.alu3op,
        c.irqif, c.copmsize, c.yamdbg,
    ];
    print!(rt; ":")?;
    for n in numbers {
        print!(rt; " {n:x}")?;
    }
    Ok(())
}

// The cells that are not as before.
fn put_changes(rt: &impl Print, before: &[u32], after: &[u32]) -> io::Result<()> {
    for (at, (old, new)) in before.iter().zip(after).enumerate() {
        if old != new {
            print!(rt; " {at:x}={new:x}")?;
        }
    }
    Ok(())
}

// The little-endian word at a place of the file, 0 past its end.
fn word_at(file: &[u8], at: usize) -> u32 {
    if at < file.len() / WORD_BYTES {
        let from = at * WORD_BYTES;
        return u32::from_le_bytes([file[from], file[from + 1], file[from + 2], file[from + 3]]);
    }
    0
}

// The words of the file that are not as before.
fn put_file_changes(rt: &impl Print, before: &[u8], after: &[u8]) -> io::Result<()> {
    for at in 0..after.len() / WORD_BYTES {
        let word = word_at(after, at);
        if word_at(before, at) != word {
            print!(rt; " {at:x}={word:x}")?;
        }
    }
    Ok(())
}

// A load with the parts that are lent.
pub fn load_case(
    rt: &impl Print,
    bytes: usize,
    words: usize,
    file: &[u8; 2048],
    image: &mut [u32; 512],
) -> io::Result<()> {
    let before = *image;
    let end = bytes.min(file.len());
    let size = words.min(image.len());
    let loaded = image::load(&file[..end], &mut image[..size]);
    let number = loaded.map_or_else(Refusal::number, |_| 0);
    print!(rt; "load {number:x}")?;
    put_config(rt, loaded.unwrap_or(Config::default()))?;
    print!(rt; ";")?;
    put_changes(rt, &before, image)?;
    println!(rt)
}

// A store into the parts that are lent.
pub fn store_case(
    rt: &impl Print,
    config: Config,
    bytes: usize,
    words: usize,
    file: &mut [u8; 2048],
    image: &[u32; 512],
) -> io::Result<()> {
    let before = *file;
    let end = bytes.min(file.len());
    let size = words.min(image.len());
    let stored = image::store(config, &image[..size], &mut file[..end]);
    let number = stored.map_or_else(Refusal::number, |_| 0);
    print!(rt; "store {number:x}:")?;
    put_file_changes(rt, &before, file)?;
    println!(rt)
}
