//! Texts in bytes: without the case of letters, and as elements of a list with commas (RFC 9110, 5.6.1).
ghost use Rattle.std.specs.Prelude.{◌≡◌, ◌≤◌, IsTrue, length};
ghost use Rattle.httparse.specs.Grammar.{is_ows, skip_ows};
ghost use Rattle.websocket.specs.Headers.{eq_ignore_case};
ghost use Rattle.web_opening.specs.Text.{begins_with, is_same_text, is_before_white_space, is_element, has_element};

/// How the letters of two texts are compared.
#[derive(Clone, Copy)]
pub(crate) enum Letters {
    /// An ASCII letter is its own other case too.
    AnyCase,
    /// Each byte is itself alone.
    Exact,
}

/// Says whether two texts are equal but for the case of ASCII letters.
pub(crate) fn eq_ignore_case(a: &[u8], b: &[u8]) -> bool
    ensures { result ≡ eq_ignore_case a.now b.now }
{
    a.eq_ignore_ascii_case(b)
}

/// Says whether a text begins with another, but for the case of ASCII letters.
#[tactic(auto, using(std::proofs::lemmas::Bool::Decides::nat_tests))]
pub(crate) fn begins_with(text: &[u8], beginning: &[u8]) -> bool
    ensures value { result ≡ begins_with text.now beginning.now }
    ensures fits { IsTrue result → length beginning.now ≤ length text.now }
{
    if text.len() < beginning.len() {
        return false;
    }
    eq_ignore_case(&text[..beginning.len()], beginning)
}

/// Says whether two texts are equal.
fn is_same_text(a: &[u8], b: &[u8], letters: Letters) -> bool
    ensures { result ≡ is_same_text letters a.now b.now }
{
    match letters {
        Letters::AnyCase => eq_ignore_case(a, b),
        Letters::Exact => a == b,
    }
}

/// Says whether a byte is a space or a tab.
#[tactic(auto, using(std::proofs::lemmas::Bool::Decides::nat_tests))]
fn is_white_space(byte: u8) -> bool
    ensures { result ≡ is_ows byte }
{
    byte == b' ' || byte == b'\t'
}

/// Returns a text without the spaces and tabs at its beginning.
#[tactic(auto, using(crate::proofs::TextLemmas::skip_ows_step, crate::proofs::TextLemmas::skip_ows_stop))]
fn skip_white_space(text: &[u8]) -> &[u8]
    ensures { result.now ≡ skip_ows text.now }
{
    for at in 0..text.len() {
        if !is_white_space(text[at]) {
            return &text[at..];
        }
    }
    &[]
}

/// Says whether a text is the wanted one, with spaces and tabs behind it or none.
#[tactic(auto, using(std::proofs::lemmas::Bool::Decides::nat_tests))]
fn is_before_white_space(text: &[u8], wanted: &[u8], letters: Letters) -> bool
    ensures { result ≡ is_before_white_space text.now wanted.now letters }
{
    if text.len() < wanted.len() {
        return false;
    }
    is_same_text(&text[..wanted.len()], wanted, letters)
        && skip_white_space(&text[wanted.len()..]).is_empty()
}

/// Says whether a piece is the wanted text, with spaces and tabs around it or none.
#[tactic(auto, unfolding(crate::specs::Text::is_element))]
fn is_element(piece: &[u8], wanted: &[u8], letters: Letters) -> bool
    ensures { result ≡ is_element piece.now wanted.now letters }
{
    is_before_white_space(skip_white_space(piece), wanted, letters)
}

/// Says whether one of the pieces between commas is the wanted text, with spaces and tabs around it or none.
pub(crate) fn has_element(list: &[u8], wanted: &[u8], letters: Letters) -> bool
    ensures { result ≡ has_element list.now wanted.now letters }
{
    let mut start = 0;
    for at in 0..list.len() {
        if list[at] == b',' {
            if is_element(&list[start..at], wanted, letters) {
                return true;
            }
            start = at + 1;
        }
    }
    is_element(&list[start..], wanted, letters)
}
