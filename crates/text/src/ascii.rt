// Classes of ASCII characters. Small letters are asked for first: they are the most frequent.
ghost use Rattle.std.specs.Prelude.{◌≡◌};
ghost use Rattle.text.specs.Ascii.{is_digit, is_alpha, is_word_start, is_word_part};

#[tactic(auto, using(crate::proofs::Tests::steps), unfolding(crate::specs::Ascii::is_digit))]
pub fn is_digit(code: u32) -> bool
    ensures { result ≡ is_digit code }
{
    matches!(code, 0x30..=0x39)
}

#[tactic(auto, using(crate::proofs::Tests::steps), unfolding(crate::specs::Ascii::is_alpha))]
pub fn is_alpha(code: u32) -> bool
    ensures { result ≡ is_alpha code }
{
    matches!(code, 0x61..=0x7A | 0x41..=0x5A)
}

#[tactic(auto, using(crate::proofs::Tests::steps), unfolding(crate::specs::Ascii::is_word_start))]
pub fn is_word_start(code: u32) -> bool
    ensures { result ≡ is_word_start code }
{
    is_alpha(code) || code == 0x5F
}

#[tactic(auto, using(crate::proofs::Tests::steps), unfolding(crate::specs::Ascii::is_word_part, crate::specs::Ascii::is_word_start, crate::specs::Ascii::is_alpha, crate::specs::Ascii::is_digit))]
pub fn is_word_part(code: u32) -> bool
    ensures { result ≡ is_word_part code }
{
    if code < 0x61 {
        return matches!(code, 0x41..=0x5A | 0x30..=0x39 | 0x5F);
    }
    code <= 0x7A
}
