// Tokens written into a lent buffer from an offset on. Each function answers the offset behind what it wrote, and asks for the room.
ghost use Rattle.std.specs.Prelude.{◌≡◌, [], ◌∷◌};
ghost use Rattle.topics.specs.Ranges.{name_in};
ghost use Rattle.writing.specs.Pieces.{Piece, further};
ghost use Rattle.spelling.specs.Put.{Put, Fits};

use model::Name;
use text::part;

pub fn put(out: &mut [u8], at: usize, new: &[u8]) -> usize
    requires { Fits out.old at new.now }
    ensures { Put out.old at new.now out.new result }
{
    let end = at + new.len();
    out[at..end].copy_from_slice(new);
    end
}

// A string, in quotes.
pub fn put_string(out: &mut [u8], at: usize, text: &[u8], name: Name) -> usize
    requires { Fits out.old at (further (Piece.string (name_in text.now name) ∷ [])) }
    ensures { Put out.old at (further (Piece.string (name_in text.now name) ∷ [])) out.new result }
{
    let start = name.start as usize;
    let i = put(out, at, b" \"");
    let j = put(
        out,
        i,
        part::part(text, start, start + name.length as usize),
    );
    put(out, j, b"\"")
}
