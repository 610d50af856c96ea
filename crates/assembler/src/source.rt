// A whole source text.
ghost use Rattle.assembler.specs.Claims.{Assembles};

use crate::AssembleError;
use crate::gathering::gather;
use crate::labels::Labels;
use crate::lines::read_lines;
use words::{Config, Writer};

// Reads a source text into words, and answers how many there are: 1; 36; 24; then the first bad line's 26, 25, 6 or 7 (specs/Claims.antt). A refusal writes no
// word, and there is no place to keep the words before the last line is read: so the lines are read twice, and the words kept the second time.
pub fn assemble(c: Config, text: &[u8], words: &mut [u32]) -> Result<usize, AssembleError>
    ensures { Assembles c text.now words.old result words.new }
{
    let writer = Writer::of(c).ok_or(AssembleError::Unlawful)?;
    let mut labels = Labels::new();
    gather(text, words.len(), &mut labels)?;
    read_lines(&writer, &labels, text, &mut [])?;
    read_lines(&writer, &labels, text, words)
}
