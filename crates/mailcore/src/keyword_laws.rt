//! Laws of flags by their names, each shown by a function that does nothing.

ghost use Rattle.std.specs.Prelude.{◌≡◌, ◌<◌, ◌^◌, ◌&&◌, ℕ, List, IsTrue};
ghost use Rattle.mailcore.specs.FlagSet.{FLAGS, has, minus, union};
ghost use Rattle.mailcore.specs.declared.flags.Flag.{Flag};
ghost use Rattle.mailcore.specs.declared.keywords.Keyword.{Keyword};
ghost use Rattle.mailcore.specs.FlagNames.{place, is_named};
ghost use Rattle.mailcore.specs.KeywordNames.{IsMap, IsWithin, flags_named, is_known, kept, known_set, named_set, names_of};

/// What is written of a set is read again as those of its flags that have a name: all of them, if each has one.
pub fn flags_by_names()
    ensures flags { (map : List Keyword) (flags k : ℕ) → IsMap map → k < FLAGS
        → has (named_set map (names_of map flags)) k ≡ (has flags k && is_known map k) }
    ensures same { (map : List Keyword) (flags : ℕ) → IsMap map → IsWithin map flags → named_set map (names_of map flags) ≡ flags }
    ensures kept { (map : List Keyword) (flags : ℕ) → IsMap map → named_set map (names_of map flags) ≡ kept map flags }
{}

/// The flags that have a name.
pub fn known_flags()
    ensures flags { (map : List Keyword) (k : ℕ) → k < FLAGS → has (known_set map) k ≡ is_known map k }
    ensures set { (map : List Keyword) → known_set map < 2 ^ FLAGS }
    ensures within { (map : List Keyword) → IsWithin map (known_set map) }
{}

/// What is kept of a set are its flags that have a name: the set, if each has one.
pub fn kept_flags()
    ensures flags { (map : List Keyword) (flags k : ℕ) → k < FLAGS → has (kept map flags) k ≡ (has flags k && is_known map k) }
    ensures within { (map : List Keyword) (flags : ℕ) → IsWithin map (kept map flags) }
    ensures same { (map : List Keyword) (flags : ℕ) → IsWithin map flags → kept map flags ≡ flags }
    ensures union { (map : List Keyword) (a b : ℕ) → kept map (union a b) ≡ union (kept map a) (kept map b) }
    ensures minus { (map : List Keyword) (a b : ℕ) → kept map (minus a b) ≡ minus (kept map a) (kept map b) }
{}

/// Sets whose flags all have a name.
pub fn sets_within()
    ensures none { (map : List Keyword) → IsWithin map 0 }
    ensures named { (map : List Keyword) (names : List (List ℕ)) → IsWithin map (named_set map names) }
    ensures union { (map : List Keyword) (a b : ℕ) → IsWithin map a → IsWithin map b → IsWithin map (union a b) }
    ensures minus { (map : List Keyword) (a b : ℕ) → IsWithin map a → IsWithin map (minus a b) }
{}

/// Each of the six is found by its name in any case, whatever the map.
#[tactic(auto, unfolding(crate::specs::KeywordNames::flags_named))]
pub fn flag_by_imap_name()
    ensures { (map : List Keyword) (flag : Flag) (name : List ℕ) → IsTrue (is_named name flag) → flags_named map name ≡ 2 ^ place flag }
{}
