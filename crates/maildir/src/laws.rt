//! Laws of this crate's definitions, each shown by a function that does nothing.

ghost use Rattle.std.specs.Prelude.{◌≡◌, ◌<◌, ◌^◌, ℕ, IsTrue, List, false, slice_index, Some, true};
ghost use Rattle.std.specs.List.{list_any};
ghost use Rattle.mailcore.specs.declared.keywords.Keyword.{Keyword};
ghost use Rattle.mailcore.specs.FlagNames.{LETTERS, letters_of};
ghost use Rattle.mailcore.specs.FlagSet.{FLAGS, has};
ghost use Rattle.mailcore.specs.KeywordNames.{kept};
ghost use Rattle.maildir.specs.declared.folder.FileName.{FileName};
ghost use Rattle.maildir.specs.declared.meta.Meta.{Meta};
ghost use Rattle.maildir.specs.Folders.{AreApart, Stored, is_at, placed, removed_file, renamed_file, with_copy, with_meta};
ghost use Rattle.maildir.specs.Gains.{Adds, Gains};
ghost use Rattle.maildir.specs.Letters.{flags_in, has_letter, is_known_letter, letters_with};
ghost use Rattle.maildir.specs.Metas.{MetaText, meta_of};
ghost use Rattle.maildir.specs.Names.{NameParts, NameText, name_of, is_letter, is_waiting, are_letters, uid_in};
ghost use Rattle.maildir.specs.FlaggedNames.{flags_by_name, flagged, letters_in};
ghost use Rattle.mailcore.specs.Visitors.{Visitors};

/// A name is read from exactly the bytes that are its spelling, and so each text spells one name at most.
pub fn names_by_their_spelling()
    ensures spelled { (name : NameParts) (text : List ℕ) → name_of text ≡ Some name → NameText name text }
    ensures read { (name : NameParts) (text : List ℕ) → NameText name text → name_of text ≡ Some name }
{}

/// A meta file is read from exactly the bytes that are its spelling.
pub fn metas_by_their_spelling()
    ensures spelled { (meta : Meta) (text : List ℕ) → meta_of text ≡ Some meta → MetaText meta text }
    ensures read { (meta : Meta) (text : List ℕ) → MetaText meta text → meta_of text ≡ Some meta }
{}

/// A flag is among those that letters stand for exactly if its letter is there, so that the letters of a set stand for this set.
pub fn flags_by_their_letters()
    ensures flags { (letters : List ℕ) (place : ℕ) → place < FLAGS → has (flags_in letters) place ≡ has_letter letters (slice_index LETTERS place) }
    ensures set { (letters : List ℕ) → flags_in letters < 2 ^ FLAGS }
    ensures same { (flags : ℕ) → flags < 2 ^ FLAGS → flags_in (letters_of flags) ≡ flags }
{}

/// The letters of a name whose message has some flags stand for those of these flags that have a name in IMAP, keep each letter that is
/// not known, and strictly rise.
pub fn letters_by_their_flags()
    ensures flags { (keywords : List Keyword) (before : List ℕ) (flags : ℕ)
        → kept keywords (flags_in (letters_with keywords before flags)) ≡ kept keywords flags }
    ensures others { (keywords : List Keyword) (before : List ℕ) (flags b : ℕ) → IsTrue (is_letter b) → is_known_letter keywords b ≡ false
        → has_letter (letters_with keywords before flags) b ≡ has_letter before b }
    ensures rise { (keywords : List Keyword) (before : List ℕ) (flags : ℕ) → IsTrue (are_letters (letters_with keywords before flags)) }
{}

/// A name whose flags are changed bears the new ones, and keeps its base and its UID.
pub fn names_by_their_flags()
    ensures flags { (keywords : List Keyword) (text : List ℕ) (name : NameParts) (flags : ℕ) → name_of text ≡ Some name
        → flags_by_name keywords (flagged keywords name flags) ≡ kept keywords flags }
    ensures parts { (keywords : List Keyword) (text : List ℕ) (name : NameParts) (flags : ℕ) → name_of text ≡ Some name
        → name_of (flagged keywords name flags) ≡ Some (record name { letters = Some (letters_with keywords (letters_in name) flags) }) }
    ensures uid { (keywords : List Keyword) (text : List ℕ) (name : NameParts) (flags : ℕ) → name_of text ≡ Some name
        → uid_in (flagged keywords name flags) ≡ uid_in text }
{}

/// What others add before a call of the folder, they could as well have added after it: what the call does is not touched by that. A
/// file that is renamed or removed was there before, and a name that a file gets is not that of one that waits for its UID.
pub fn others_could_come_after()
    ensures renamed { (v : Visitors) (s m : Stored) (from to : FileName) → list_any (is_at from.place from.name) s.files ≡ true
        → is_waiting to.name ≡ false → Gains v s m → Gains v (renamed_file from to s) (renamed_file from to m) }
    ensures placed { (v : Visitors) (s m : Stored) (to : FileName) → is_waiting to.name ≡ false → Gains v s m → Gains v (placed to s) (placed to m) }
    ensures removed { (v : Visitors) (s m : Stored) (file : FileName) → list_any (is_at file.place file.name) s.files ≡ true
        → Gains v s m → Gains v (removed_file file s) (removed_file file m) }
    ensures meta { (v : Visitors) (s m : Stored) (text : List ℕ) → Gains v s m → Gains v (with_meta text s) (with_meta text m) }
    ensures copy { (v : Visitors) (s m : Stored) (bytes : List ℕ) → Gains v s m → Gains v (with_copy bytes s) (with_copy bytes m) }
{}

/// Others may add nothing, and what they add in turn they could have added at once. Files stay apart.
pub fn others_add_in_turn()
    ensures nothing { (v : Visitors) (s : Stored) → Gains v s s }
    ensures more { (v : Visitors) (s m n : Stored) → Gains v s m → Gains v m n → Gains v s n }
    ensures apart { (v : Visitors) (s m : Stored) → Gains v s m → AreApart s.files → AreApart m.files }
    ensures nothing_after { (v : Visitors) (s : Stored) → Adds v s s }
    ensures more_after { (v : Visitors) (s m n : Stored) → Adds v s m → Adds v m n → Adds v s n }
{}
