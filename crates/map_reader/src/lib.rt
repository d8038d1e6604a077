// The reader of a map's text by itself, as a function of a static library: the bench times it beside a parser in Rust.
#![tactic(auto)]

ghost use Rattle.std.specs.Prelude.{◌≡◌};
ghost use Rattle.map_reader.specs.Scan.{text_read};
ghost use Rattle.map_reader.specs.Reader.{lines_of};

mod text;

use crate::text::read_text;

// How many lines a map's text has, or 0 for a text that is no map's, and how many bytes were read of it.
#[unsafe(no_mangle)]
pub extern "C" fn oarhatchet_read_text(text: &[u8], bytes: &mut u64) -> u64
    ensures value { result ≡ lines_of (text_read text.now).map }
    ensures bytes_after { bytes.new ≡ (text_read text.now).bytes }
{
    let read = read_text(text);
    *bytes = read.bytes as u64;
    match read.map {
        Some(m) => m.count as u64,
        None => 0,
    }
}
