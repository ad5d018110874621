//! First lines of texts.
ghost use Rattle.std.specs.Prelude.{◌≡◌, ◌≤◌, ◌+◌, ◌++◌, ◌∷◌, ℕ, List, length};
ghost use Rattle.lmn_receipt_chain.specs.Bytes.{IsFirstLine, NoFeed};

/// The length of the first line of a text, with its line feed.
fn line_length(text: &[u8]) -> usize
    ensures within { result ≤ length text.now }
    ensures line { (line more : List ℕ) → NoFeed line → text.now ≡ line ++ (10 ∷ more) → result ≡ length line + 1 }
{
    for at in 0..text.len() {
        if text[at] == b'\n' {
            return at + 1;
        }
    }
    text.len()
}

/// The first line of a text, with its line feed.
pub(crate) fn first_line(text: &[u8]) -> &[u8]
    ensures { IsFirstLine text.now result.now }
{
    &text[..line_length(text)]
}
