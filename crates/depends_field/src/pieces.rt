ghost use Rattle.std.specs.Prelude.{◌≡◌, ◌<◌, ◌≤◌, ◌==◌, ◌||◌, length, slice_index};
ghost use Rattle.std.specs.List.{prefix_len, list_all};
ghost use Rattle.ap_text.specs.Names.{is_name_byte as name_byte};
ghost use Rattle.depends_field.specs.Pieces.{is_blank as blank, is_version_byte as version_byte, is_word_byte as word_byte, operator_len as longest_operator, piece_len as len_of_piece, inside_after as after_piece, front};

/// Whether a byte is a space, a tab or a line end.
pub fn is_blank(b: u8) -> bool
    ensures { result ≡ blank b }
{
    b == b' ' || b == b'\t' || b == b'\n'
}

fn is_name_byte(b: u8) -> bool
    ensures { result ≡ name_byte b }
{
    b.is_ascii_alphanumeric() || matches!(b, b'+' | b'-' | b'.' | b'_')
}

fn is_version_byte(b: u8) -> bool
    ensures { result ≡ version_byte b }
{
    b.is_ascii_alphanumeric() || matches!(b, b'.' | b'+' | b'-' | b'~' | b':')
}

/// Whether a piece has no byte but those of versions.
pub fn has_version_bytes(piece: &[u8]) -> bool
    ensures { result ≡ list_all version_byte piece.now }
{
    piece.iter().all(|b| is_version_byte(*b))
}

fn is_word_byte(inside: bool, b: u8) -> bool
    ensures { result ≡ word_byte inside b }
{
    if inside {
        is_version_byte(b)
    } else {
        is_name_byte(b)
    }
}

fn blanks_len(text: &[u8]) -> usize
    ensures { result ≡ prefix_len blank text.now }
{
    text.iter().take_while(|b| is_blank(**b)).count()
}

fn word_len(inside: bool, text: &[u8]) -> usize
    ensures { result ≡ prefix_len (word_byte inside) text.now }
{
    text.iter()
        .take_while(|b| is_word_byte(inside, **b))
        .count()
}

/// Whether the second byte makes an operator of two bytes with the first, which is `<` or `>`.
fn is_doubled(first: u8, text: &[u8]) -> bool
    requires { 0 < first }
    ensures { result ≡ (slice_index text.now 1 == first || slice_index text.now 1 == 61) }
{
    text.len() > 1 && (text[1] == first || text[1] == b'=')
}

/// The length of the operator at the front, or 0.
fn operator_len(text: &[u8]) -> usize
    requires { 0 < length text.now }
    ensures { result ≡ longest_operator text.now }
{
    match text[0] {
        b'=' => 1,
        b'<' => 1 + usize::from(is_doubled(b'<', text)),
        b'>' => 1 + usize::from(is_doubled(b'>', text)),
        _ => 0,
    }
}

/// The length of the piece at the front.
#[tactic(auto, unfolding(crate::specs::Pieces::piece_len))]
fn piece_len(inside: bool, text: &[u8]) -> usize
    requires { 0 < length text.now }
    ensures { result ≡ len_of_piece inside text.now }
{
    if is_blank(text[0]) {
        return blanks_len(text);
    }
    if is_word_byte(inside, text[0]) {
        return word_len(inside, text);
    }
    if inside && operator_len(text) > 0 {
        return operator_len(text);
    }
    1
}

/// The piece at the front.
pub fn first_piece(inside: bool, text: &[u8]) -> &[u8]
    requires { 0 < length text.now }
    ensures piece { result.now ≡ front inside text.now }
    ensures some { 0 < length result.now }
    ensures len { length result.now ≡ len_of_piece inside text.now }
    ensures within { length result.now ≤ length text.now }
{
    &text[..piece_len(inside, text)]
}

/// Whether what follows a piece stands in parentheses.
#[tactic(auto, unfolding(crate::specs::Pieces::inside_after))]
pub fn inside_after(inside: bool, piece: &[u8]) -> bool
    ensures { result ≡ after_piece inside piece.now }
{
    if inside {
        piece != b")".as_slice()
    } else {
        piece == b"(".as_slice()
    }
}
