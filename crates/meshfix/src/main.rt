// The program `meshfix` of document 01: reads a text from standard input, and writes its answer.
// The files stdin and stdout are the document's example.
#![tactic(auto)]

use std::io;

fn main(rt: HostRuntime) -> io::Result<()> {
    // one byte more than a text may have, so that a longer one is seen
    let mut text = [0; 8193];
    let n = input::read_full(&mut rt.stdin(), &mut text)?;
    let mut out = [0; 16384];
    let end = mend_text::mend_text(&text[..n], &mut out);
    rt.write_all(&out[..end])
}
