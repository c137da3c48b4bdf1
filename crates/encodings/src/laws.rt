//! Laws of the prescan. These functions do nothing; each contract says what follows from the
//! definitions.

ghost use Rattle.std.specs.Prelude.{◌≡◌, ◌+◌, ◌≤◌, ◌==◌, ◌++◌, List, Some, codes, length, not, true, ℕ};
ghost use Rattle.std.specs.List.{list_all};
ghost use Rattle.encodings.specs.Bytes.{IsPlain};
ghost use Rattle.encodings.specs.Labels.{encoding_of, of_markup};
ghost use Rattle.encodings.specs.Prescan.{declared_encoding, looked_at, prescan};
ghost use Rattle.encodings.specs.declared.encoding.Encoding.{Encoding};

/// Nothing after the first 1,024 bytes of a page declares its encoding.
pub fn only_the_front_is_looked_at()
    ensures { (bytes more : List ℕ) → looked_at ≤ length bytes
        → declared_encoding (bytes ++ more) ≡ declared_encoding bytes }
{}

/// A page that begins with `<meta charset=LABEL>` is in the encoding of that label, whatever
/// follows; but UTF-16 becomes UTF-8, and x-user-defined becomes windows-1252.
pub fn the_first_meta_declares()
    ensures { (label rest : List ℕ) (encoding : Encoding) → IsPlain label
        → encoding_of label ≡ Some encoding → 15 + length label ≤ looked_at
        → declared_encoding (codes "<meta charset=" ++ (label ++ (codes ">" ++ rest)))
        ≡ Some (of_markup encoding) }
{}

/// A comment before the markup that declares an encoding changes nothing.
pub fn comments_declare_nothing()
    ensures { (text rest : List ℕ) → list_all (λ byte. not (byte == 0x3E)) text ≡ true
        → prescan 0 (codes "<!--" ++ (text ++ (codes "-->" ++ rest))) ≡ prescan 0 rest }
{}
