//! The rows of an interface.

ghost use Rattle.std.specs.Prelude.{◌≡◌, [], ◌++◌, codes, option_map, true, false, Some, IfOk};
ghost use Rattle.std.specs.Str.{IsUtf8};
ghost use Rattle.sx_lines.specs.Words.{is_name};
ghost use Rattle.sx_lines.specs.Lines.{lines_from};
ghost use Rattle.sx_lines.specs.Left.{left};
ghost use Rattle.sx_lines.specs.Reading.{GivesRead, the_line, next_line, no_line};
ghost use Rattle.sx_lines.specs.Rows.{distinct_rows};
ghost use Rattle.sx_interface.specs.Interfaces as spec;
ghost use Rattle.sx_interface.specs.InterfaceView.{marks_view, front_view, rows_view};
ghost use Rattle.sx_interface.specs.Reading.{RefusesHeader};

use crate::error::HeaderError;
use crate::interfaces::ImportMark;
use crate::mark_rows::{language_row, mark_rows};
use crate::marks::{Digest, read_digest};
use crate::rows::is_row;
use crate::version::Version;
use std::alloc::Global;
use sx_lines::{Rest, after};
use sx_term::Text;

/// What stands before the imports of an interface, but for the marks of the uses, and what is left
/// from there on.
#[derive(Clone, Copy)]
struct Front<'a> {
    version: Version,
    language: &'a [u8],
    language_digest: Digest,
    base_digest: Digest,
    rest: Rest<'a>,
}

/// The signature in base syntax, and as it is stated.
#[derive(Clone, Copy)]
struct Signatures<'a> {
    signature: &'a [u8],
    stated: &'a [u8],
}

/// What the rows of an interface state besides the marks.
#[derive(Clone, Copy)]
pub(crate) struct Rows<'a> {
    pub(crate) language: &'a [u8],
    pub(crate) language_digest: Digest,
    pub(crate) base_digest: Digest,
    pub(crate) signature: &'a [u8],
    pub(crate) stated: &'a [u8],
}

/// The version that a first line names.
fn version_of(text: &[u8]) -> Option<Version>
    ensures { result ≡ spec.version_of text.now }
{
    if text == b"sxint 1".as_slice() {
        return Some(Version::One);
    }
    if text == b"sxint 2".as_slice() {
        return Some(Version::Two);
    }
    None
}

/// The version in the first line, and what is left after it.
#[tactic(auto, unfolding(sx_lines::specs::Reading::next_line))]
fn version_row<'a>(rest: Rest<'a>) -> Result<(Version, Rest<'a>), HeaderError>
    ensures line { GivesRead (λ x. (x.0, left x.1)) RefusesHeader result
        (next_line spec.version_of (left rest.entry)) }
    ensures utf8 { IsUtf8 rest.entry.bytes.now → IfOk result (λ x. IsUtf8 x.1.bytes.now) }
{
    let (line, more) = rest.next()?;
    match version_of(line.text) {
        Some(version) => Ok((version, more)),
        None => Err(HeaderError::Header(line.number)),
    }
}

/// What is left after the line with this text.
#[tactic(auto, unfolding(sx_lines::specs::Reading::the_line))]
fn exact_line<'a>(text: &[u8], rest: Rest<'a>) -> Result<Rest<'a>, HeaderError>
    ensures line { GivesRead left RefusesHeader result (the_line text.now (left rest.entry)) }
    ensures utf8 { IsUtf8 rest.entry.bytes.now → IfOk result (λ x. IsUtf8 x.bytes.now) }
{
    let (line, more) = rest.next()?;
    if line.text != text {
        return Err(HeaderError::Header(line.number));
    }
    Ok(more)
}

/// What is left after the line `module` and the name.
#[tactic(auto, unfolding(sx_lines::specs::Reading::the_line))]
fn module_line<'a>(name: &[u8], rest: Rest<'a>) -> Result<Rest<'a>, HeaderError>
    ensures line { GivesRead left RefusesHeader result (the_line (codes "module " ++ name.now)
        (left rest.entry)) }
    ensures utf8 { IsUtf8 rest.entry.bytes.now → IfOk result (λ x. IsUtf8 x.bytes.now) }
{
    let (line, more) = rest.next()?;
    if !is_row(line.text, b"module ", name) {
        return Err(HeaderError::Header(line.number));
    }
    Ok(more)
}

/// The digest in a row with this front.
#[tactic(auto, unfolding(crate::specs::Interfaces::digest_after))]
fn digest_after(text: &[u8], front: &[u8]) -> Option<Digest>
    ensures { option_map (λ d. d.bytes) result ≡ spec.digest_after front.now text.now }
{
    match after(text, front) {
        Some(digits) => read_digest(digits),
        None => None,
    }
}

/// The digest in the next row, and what is left after it.
#[tactic(auto, unfolding(sx_lines::specs::Reading::next_line))]
fn base_row<'a>(rest: Rest<'a>) -> Result<(Digest, Rest<'a>), HeaderError>
    ensures line { GivesRead (λ x. (x.0.bytes, left x.1)) RefusesHeader result
        (next_line (spec.digest_after (codes "base ")) (left rest.entry)) }
    ensures utf8 { IsUtf8 rest.entry.bytes.now → IfOk result (λ x. IsUtf8 x.1.bytes.now) }
{
    let (line, more) = rest.next()?;
    match digest_after(line.text, b"base ") {
        Some(digest) => Ok((digest, more)),
        None => Err(HeaderError::Header(line.number)),
    }
}

/// Appends the marks in the `use` rows, which version 1 does not have, and answers what is left
/// after them.
fn use_rows<'a>(
    alloc: Global,
    version: Version,
    rest: Rest<'a>,
    uses: &mut Vec<ImportMark>,
) -> Result<Rest<'a>, HeaderError>
    requires { uses.old.items ≡ [] }
    ensures rows { GivesRead (λ x. (marks_view uses.new.items, left x)) RefusesHeader result
        (distinct_rows (λ m. m.name) (spec.use_after version) [] (left rest.entry)) }
    ensures utf8 { IsUtf8 rest.entry.bytes.now → IfOk result (λ x. IsUtf8 x.bytes.now) }
{
    match version {
        Version::One => Ok(rest),
        Version::Two => mark_rows(alloc, b"use ", rest, uses),
    }
}

/// The text of the next line, and what is left after it.
#[tactic(auto, unfolding(sx_lines::specs::Reading::next_line))]
fn signature_line<'a>(rest: Rest<'a>) -> Result<(&'a [u8], Rest<'a>), HeaderError>
    requires { IsUtf8 rest.bytes.now }
    ensures line { GivesRead (λ x. (x.0.now, left x.1)) RefusesHeader result
        (next_line Some (left rest.entry)) }
    ensures utf8 { IfOk result (λ x. IsUtf8 x.0.now × IsUtf8 x.1.bytes.now) }
{
    let (line, more) = rest.next()?;
    Ok((line.text, more))
}

/// The stated signature, which in version 1 is the signature, and what is left after it.
fn stated_line<'a>(
    version: Version,
    signature: &'a [u8],
    rest: Rest<'a>,
) -> Result<(&'a [u8], Rest<'a>), HeaderError>
    requires signature { IsUtf8 signature.now }
    requires utf8 { IsUtf8 rest.bytes.now }
    ensures line { GivesRead (λ x. (x.0.now, left x.1)) RefusesHeader result
        (spec.stated_signature version (signature.entry.now, left rest.entry)) }
    ensures utf8 { IfOk result (λ x. IsUtf8 x.0.now) }
{
    match version {
        Version::One => Ok((signature, rest)),
        Version::Two => signature_line(rest),
    }
}

/// That no line is left.
#[tactic(auto, unfolding(sx_lines::specs::Reading::no_line))]
fn end(rest: Rest<'_>) -> Result<(), HeaderError>
    ensures { GivesRead (λ x. x) RefusesHeader result (no_line (left rest.entry)) }
{
    match rest.next() {
        Ok((line, _)) => Err(HeaderError::Header(line.number)),
        Err(_) => Ok(()),
    }
}

/// What stands before the imports of an interface, with the marks in the `use` lines.
fn read_front<'a>(
    alloc: Global,
    name: &Text,
    bytes: &'a [u8],
    uses: &mut Vec<ImportMark>,
) -> Result<Front<'a>, HeaderError>
    requires { uses.old.items ≡ [] }
    ensures rows { GivesRead (λ x. front_view x (marks_view uses.new.items)) RefusesHeader result
        (spec.interface_front name.now (lines_from 1 bytes.entry.now)) }
    ensures named { IfOk result (λ x. is_name false x.language.now ≡ true) }
    ensures utf8 { IsUtf8 bytes.entry.now → IfOk result (λ x. IsUtf8 x.rest.bytes.now) }
{
    let (version, rest) = version_row(Rest::all(bytes))?;
    let rest = module_line(name.bytes(), rest)?;
    let ((language, language_digest), rest) = language_row(rest)?;
    let rest = use_rows(alloc, version, rest, uses)?;
    let (base_digest, rest) = base_row(rest)?;
    Ok(Front {
        version,
        language,
        language_digest,
        base_digest,
        rest,
    })
}

/// The signatures, which are all that stands after the imports.
fn read_signatures<'a>(version: Version, rest: Rest<'a>) -> Result<Signatures<'a>, HeaderError>
    requires { IsUtf8 rest.bytes.now }
    ensures lines { GivesRead (λ x. (x.signature.now, x.stated.now)) RefusesHeader result
        (spec.signatures_of version (left rest.entry)) }
    ensures signature { IfOk result (λ x. IsUtf8 x.signature.now) }
    ensures stated { IfOk result (λ x. IsUtf8 x.stated.now) }
{
    let rest = exact_line(b"---", rest)?;
    let (signature, rest) = signature_line(rest)?;
    let (stated, rest) = stated_line(version, signature, rest)?;
    end(rest)?;
    Ok(Signatures { signature, stated })
}

/// What the lines of an interface state, with the marks in the `use` and `import` lines.
pub(crate) fn read_rows<'a>(
    alloc: Global,
    name: &Text,
    bytes: &'a [u8],
    uses: &mut Vec<ImportMark>,
    imports: &mut Vec<ImportMark>,
) -> Result<Rows<'a>, HeaderError>
    requires utf8 { IsUtf8 bytes.now }
    requires uses { uses.old.items ≡ [] }
    requires imports { imports.old.items ≡ [] }
    ensures rows { GivesRead (λ x. rows_view name.now x (marks_view uses.new.items)
        (marks_view imports.new.items)) RefusesHeader result
        (spec.interface_of name.now (lines_from 1 bytes.entry.now)) }
    ensures named { IfOk result (λ x. is_name false x.language.now ≡ true) }
    ensures signature { IfOk result (λ x. IsUtf8 x.signature.now) }
    ensures stated { IfOk result (λ x. IsUtf8 x.stated.now) }
{
    let front = read_front(alloc, name, bytes, uses)?;
    let rest = mark_rows(alloc, b"import ", front.rest, imports)?;
    let signatures = read_signatures(front.version, rest)?;
    Ok(Rows {
        language: front.language,
        language_digest: front.language_digest,
        base_digest: front.base_digest,
        signature: signatures.signature,
        stated: signatures.stated,
    })
}
