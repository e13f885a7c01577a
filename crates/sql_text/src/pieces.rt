// The pieces of a text. A byte of 128 or more is part of a character past ASCII.
ghost use Rattle.std.specs.Prelude.{◌≡◌, ◌≤◌, ◌<◌, length, drop, slice_index, slice_range, ◌∷◌};
ghost use Rattle.sql_text.specs.Pieces.{passes, run_end, comment_end, quote_end, is_blank, is_letter, is_quote, is_prefix, first_piece, blank, line_comment, block_comment, quoted, bracketed, numbered_parameter, named_parameter, word, number, ended, first_of, enclosed_forms, named_forms, EachTextHasOneList, pieces, token};
ghost use Rattle.std.specs.Str.{IsUtf8, IsCharBoundary};

/// What a piece is. A sign carries its byte. An unclosed piece is a quote or a block comment with no end.
#[derive(Clone, Copy, Debug, PartialEq, Eq)]
pub enum PieceKind {
    Blank,
    Comment,
    Quoted,
    Parameter,
    Word,
    Number,
    Sign(u8),
    Unclosed,
}

/// A piece at the front of some bytes, and how many of them it takes.
#[derive(Clone, Copy, Debug, PartialEq, Eq)]
pub struct Piece {
    pub kind: PieceKind,
    pub size: usize,
}

/// What a piece of a text is, and where it ends.
#[derive(Clone, Copy, Debug, PartialEq, Eq)]
pub struct PlacedPiece {
    pub kind: PieceKind,
    pub end: usize,
}

/// The bytes that go on a run.
#[derive(Clone, Copy)]
enum Run {
    Line,
    Bracket,
    Digits,
    Name,
    Word,
}

/// The byte at a place. Past the end it is 0, which begins no form of more than one byte.
fn byte_at(bytes: &[u8], at: usize) -> u8
    ensures { result ≡ slice_index bytes.now at }
{
    if at < bytes.len() { bytes[at] } else { 0 }
}

fn is_blank(byte: u8) -> bool
    ensures { result ≡ is_blank byte }
{
    byte == b' ' || byte == b'\t' || byte == b'\n' || byte == 12 || byte == b'\r'
}

fn is_letter(byte: u8) -> bool
    ensures { result ≡ is_letter byte }
{
    byte.is_ascii_alphabetic() || byte == b'_' || byte >= 128
}

fn passes(run: Run, byte: u8) -> bool
    ensures { result ≡ passes run byte }
{
    match run {
        Run::Line => byte != b'\n',
        Run::Bracket => byte != b']',
        Run::Digits => byte.is_ascii_digit(),
        Run::Name => is_letter(byte) || byte.is_ascii_digit(),
        Run::Word => is_letter(byte) || byte.is_ascii_digit() || byte == b'$',
    }
}

/// Where the run that goes on at `from` ends.
fn run_end(run: Run, bytes: &[u8], from: usize) -> usize
    ensures { result ≡ run_end run from (drop from bytes.now) }
{
    let mut at = from;
    while at < bytes.len() && passes(run, bytes[at]) {
        at += 1;
    }
    at
}

/// The place after the first `*/` from `from` on.
fn comment_end(bytes: &[u8], from: usize) -> Option<usize>
    ensures { result ≡ comment_end from (drop from bytes.now) }
{
    let mut at = from;
    while at < bytes.len() {
        if bytes[at] == b'*' && byte_at(bytes, at + 1) == b'/' {
            return Some(at + 2);
        }
        at += 1;
    }
    None
}

/// The place after the first closing quote from `from` on. A doubled quote closes nothing.
fn quote_end(quote: u8, bytes: &[u8], from: usize) -> Option<usize>
    requires { 0 < quote }
    ensures { result ≡ quote_end quote from (drop from bytes.now) }
{
    let mut at = from;
    while at < bytes.len() {
        if bytes[at] != quote {
            at += 1;
        } else if byte_at(bytes, at + 1) == quote {
            at += 2;
        } else {
            return Some(at + 1);
        }
    }
    None
}

/// A piece that ends at a place, or isn't closed.
fn ended(kind: PieceKind, end: Option<usize>, rest: &[u8]) -> Piece
    ensures { result ≡ ended kind end rest.now }
{
    match end {
        Some(end) => Piece { kind, size: end },
        None => Piece {
            kind: PieceKind::Unclosed,
            size: rest.len(),
        },
    }
}

#[tactic(auto, unfolding(crate::specs::Pieces::blank))]
fn blank(rest: &[u8]) -> Option<Piece>
    ensures { result ≡ blank rest.now }
{
    if is_blank(byte_at(rest, 0)) {
        Some(Piece {
            kind: PieceKind::Blank,
            size: 1,
        })
    } else {
        None
    }
}

#[tactic(auto, unfolding(crate::specs::Pieces::line_comment))]
fn line_comment(rest: &[u8]) -> Option<Piece>
    ensures { result ≡ line_comment rest.now }
{
    if byte_at(rest, 0) == b'-' && byte_at(rest, 1) == b'-' {
        Some(Piece {
            kind: PieceKind::Comment,
            size: run_end(Run::Line, rest, 2),
        })
    } else {
        None
    }
}

#[tactic(auto, unfolding(crate::specs::Pieces::block_comment))]
fn block_comment(rest: &[u8]) -> Option<Piece>
    ensures { result ≡ block_comment rest.now }
{
    if byte_at(rest, 0) == b'/' && byte_at(rest, 1) == b'*' {
        Some(ended(PieceKind::Comment, comment_end(rest, 2), rest))
    } else {
        None
    }
}

fn is_quote(byte: u8) -> bool
    ensures { result ≡ is_quote byte }
{
    byte == 39 || byte == b'"' || byte == b'`'
}

#[tactic(auto, unfolding(crate::specs::Pieces::quoted))]
fn quoted(rest: &[u8]) -> Option<Piece>
    ensures { result ≡ quoted rest.now }
{
    let quote = byte_at(rest, 0);
    if is_quote(quote) {
        Some(ended(PieceKind::Quoted, quote_end(quote, rest, 1), rest))
    } else {
        None
    }
}

#[tactic(auto, unfolding(crate::specs::Pieces::bracketed))]
fn bracketed(rest: &[u8]) -> Option<Piece>
    ensures { result ≡ bracketed rest.now }
{
    if byte_at(rest, 0) != b'[' {
        return None;
    }
    let end = run_end(Run::Bracket, rest, 1);
    if end < rest.len() {
        Some(Piece {
            kind: PieceKind::Quoted,
            size: end + 1,
        })
    } else {
        Some(Piece {
            kind: PieceKind::Unclosed,
            size: rest.len(),
        })
    }
}

#[tactic(auto, unfolding(crate::specs::Pieces::numbered_parameter))]
fn numbered_parameter(rest: &[u8]) -> Option<Piece>
    ensures { result ≡ numbered_parameter rest.now }
{
    if byte_at(rest, 0) == b'?' {
        Some(Piece {
            kind: PieceKind::Parameter,
            size: run_end(Run::Digits, rest, 1),
        })
    } else {
        None
    }
}

pub(crate) fn is_prefix(byte: u8) -> bool
    ensures { result ≡ is_prefix byte }
{
    byte == b':' || byte == b'@' || byte == b'$'
}

#[tactic(auto, unfolding(crate::specs::Pieces::named_parameter))]
fn named_parameter(rest: &[u8]) -> Option<Piece>
    ensures { result ≡ named_parameter rest.now }
{
    if !is_prefix(byte_at(rest, 0)) {
        return None;
    }
    let end = run_end(Run::Name, rest, 1);
    if end > 1 {
        Some(Piece {
            kind: PieceKind::Parameter,
            size: end,
        })
    } else {
        None
    }
}

#[tactic(auto, unfolding(crate::specs::Pieces::word))]
fn word(rest: &[u8]) -> Option<Piece>
    ensures { result ≡ word rest.now }
{
    if is_letter(byte_at(rest, 0)) {
        Some(Piece {
            kind: PieceKind::Word,
            size: run_end(Run::Word, rest, 1),
        })
    } else {
        None
    }
}

#[tactic(auto, unfolding(crate::specs::Pieces::number))]
fn number(rest: &[u8]) -> Option<Piece>
    ensures { result ≡ number rest.now }
{
    if byte_at(rest, 0).is_ascii_digit() {
        Some(Piece {
            kind: PieceKind::Number,
            size: run_end(Run::Digits, rest, 1),
        })
    } else {
        None
    }
}

/// A comment or a run between quotes or brackets.
fn enclosed(rest: &[u8]) -> Option<Piece>
    ensures { result ≡ first_of (enclosed_forms rest.now) }
{
    if let Some(piece) = line_comment(rest) {
        return Some(piece);
    }
    if let Some(piece) = block_comment(rest) {
        return Some(piece);
    }
    if let Some(piece) = quoted(rest) {
        return Some(piece);
    }
    bracketed(rest)
}

/// A parameter, a word or a number.
fn named(rest: &[u8]) -> Option<Piece>
    ensures { result ≡ first_of (named_forms rest.now) }
{
    if let Some(piece) = numbered_parameter(rest) {
        return Some(piece);
    }
    if let Some(piece) = named_parameter(rest) {
        return Some(piece);
    }
    if let Some(piece) = word(rest) {
        return Some(piece);
    }
    number(rest)
}

/// The piece at the front of the bytes, and how many of them it takes.
#[tactic(auto, unfolding(crate::specs::Pieces::first_piece))]
pub fn first_piece(rest: &[u8]) -> Piece
    requires { 0 < length rest.now }
    ensures { result ≡ first_piece rest.now }
{
    if let Some(piece) = blank(rest) {
        return piece;
    }
    if let Some(piece) = enclosed(rest) {
        return piece;
    }
    if let Some(piece) = named(rest) {
        return piece;
    }
    Piece {
        kind: PieceKind::Sign(rest[0]),
        size: 1,
    }
}

/// The piece at a place of a text, and where it ends.
pub fn piece_at(text: &[u8], at: usize) -> PlacedPiece
    requires { at < length text.now }
    ensures later { at < result.end }
    ensures within { result.end ≤ length text.now }
    ensures between { IsUtf8 text.now → IsCharBoundary text.now at → IsCharBoundary text.now result.end }
    ensures stands { pieces (drop at text.now) ≡ token result.kind (slice_range text.now at result.end) ∷ pieces (drop result.end text.now) }
{
    let piece = first_piece(&text[at..]);
    PlacedPiece {
        kind: piece.kind,
        end: at + piece.size,
    }
}

/// Each text is the joining of exactly one list of pieces in which each is the first form that fits at its place.
pub fn each_text_has_one_list_of_pieces()
    ensures { EachTextHasOneList }
{}
