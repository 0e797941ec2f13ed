//! The files that a Release lists.
ghost use Rattle.std.specs.Prelude.{◌≡◌, ◌∷◌, [], ◌++◌, ℕ, List, true, false, IfOk, MatchOption};
ghost use Rattle.control_stanza.specs.Fields.{value_lines};
ghost use Rattle.release_file.specs.declared.listing.Listed.{Listed as File};
ghost use Rattle.release_file.specs.Words.{has_word as is_filled};
ghost use Rattle.package_core.specs.Fields.{is_file_path};
ghost use Rattle.release_file.specs.Release.{IsFile, IsListing, LinesList};

use crate::ordered::Word;
use crate::words::{has_word, three_words};
use ap_text::{SafePath, is_safe_path, read_decimal};
use digest_set::digest_of_hex;
use std::alloc::{AllocError, Global};

/// A file of an archive, as its Release lists it.
#[derive(Drop)]
pub struct Listed {
    /// Its path below the folder of the Release, of at most 700 bytes.
    pub path: SafePath,
    /// Its size in bytes.
    pub size: u64,
    /// Its SHA-256 (FIPS 180-4).
    pub sha256: [u8; 32],
}

impl Listed {
    /// The same once more. Fails only for want of memory.
    pub fn copy(&self, alloc: Global) -> Result<Listed, AllocError>
        ensures { IfOk result (λ file. file ≡ self.now) }
    {
        Ok(Listed {
            path: self.path.copy(alloc)?,
            size: self.size,
            sha256: self.sha256,
        })
    }
}

/// The path that a word is, where it is a safe path of at most 700 bytes.
fn read_path(alloc: Global, word: &str) -> Result<Option<SafePath>, AllocError>
    ensures { IfOk result (λ o. MatchOption o (is_file_path word.now ≡ false) (λ path. (is_file_path word.now ≡ true) × (path ≡ word.now))) }
{
    if word.len() > 700 || !is_safe_path(word) {
        return Ok(None);
    }
    Ok(Some(SafePath::fixed(alloc, word)?))
}

/// The file that three words say.
fn read_file(
    alloc: Global,
    digits: &str,
    size: &str,
    path: &str,
) -> Result<Option<Listed>, AllocError>
    ensures { IfOk result (λ o. MatchOption o ((file : File) → IsFile digits.now size.now path.now file → ⊥) (IsFile digits.now size.now path.now)) }
{
    let Some(sha256) = digest_of_hex::<32>(digits) else {
        return Ok(None);
    };
    let Some(size) = read_decimal(size) else {
        return Ok(None);
    };
    match read_path(alloc, path)? {
        Some(path) => Ok(Some(Listed { path, size, sha256 })),
        None => Ok(None),
    }
}

/// The file that a line lists.
fn read_listing(alloc: Global, line: &str) -> Result<Option<Listed>, AllocError>
    ensures { IfOk result (λ o. MatchOption o ((file : File) → IsListing line.now file → ⊥) (IsListing line.now)) }
{
    match three_words(line) {
        Some((digits, size, path)) => read_file(alloc, digits, size, path),
        None => Ok(None),
    }
}

/// Adds the file that a line lists, if the line isn't blank; false where it lists none.
fn put_listing(alloc: Global, files: &mut Vec<Listed>, line: &str) -> Result<bool, AllocError>
    ensures good { IfOk result (λ b. b ≡ true → (before : List (List ℕ)) → LinesList before files.old.items → LinesList (before ++ line.now ∷ []) files.new.items) }
    ensures bad { IfOk result (λ b. b ≡ false → (is_filled line.now ≡ true) × ((file : File) → IsListing line.now file → ⊥)) }
{
    if !has_word(line) {
        return Ok(true);
    }
    match read_listing(alloc, line)? {
        Some(file) => {
            files.push(file)?;
            Ok(true)
        }
        None => Ok(false),
    }
}

/// The files that the lines list, of which those that are blank say nothing; `None` where a line lists none.
fn read_lines(alloc: Global, lines: &[Word<'_>]) -> Result<Option<Vec<Listed>>, AllocError>
    ensures { IfOk result (λ o. MatchOption o ((files : List File) → LinesList lines.now files → ⊥) (λ v. LinesList lines.now v.items)) }
{
    let mut files = Vec::new(alloc);
    for line in lines {
        if !put_listing(alloc, &mut files, line.text())? {
            return Ok(None);
        }
    }
    Ok(Some(files))
}

/// The lines of a value. Fails only for want of memory.
fn lines_in<'a>(alloc: Global, value: &'a str) -> Result<Vec<Word<'a>>, AllocError>
    ensures { IfOk result (λ v. v.items ≡ value_lines value.now) }
{
    let mut lines = Vec::new(alloc);
    for line in value.split('\n') {
        lines.push(Word::new(line))?;
    }
    Ok(lines)
}

/// The files that the lines of a value list, of which those that are blank say nothing; `None` where a line lists none.
pub(crate) fn read_listings(alloc: Global, value: &str) -> Result<Option<Vec<Listed>>, AllocError>
    ensures { IfOk result (λ o. MatchOption o ((files : List File) → LinesList (value_lines value.now) files → ⊥) (λ v. LinesList (value_lines value.now) v.items)) }
{
    let lines = lines_in(alloc, value)?;
    read_lines(alloc, &lines)
}
