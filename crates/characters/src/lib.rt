// The test of a character, for every caller: how XML text writes it, or that no document may hold it.

#![tactic(auto)]

ghost use Rattle.std.specs.Prelude.{◌≡◌};
ghost use Rattle.model.specs.Definitions.Characters as model;
ghost use Rattle.characters.specs.Classes.{class};

// A character is written as itself, as an entity or as a decimal character reference, or it is not allowed.
#[derive(Clone, Copy, Debug, PartialEq, Eq)]
pub enum CharacterClass {
    Plain,
    Entity,
    DecimalReference,
    NotAllowed,
}

// The class of a byte. The entities are told apart last, so that whether a byte is allowed costs no branch for them.
pub fn class_of(c: u8) -> CharacterClass
    ensures { class result ≡ model.character_class c }
{
    match c {
        0x09 | 0x0A => CharacterClass::Plain,
        0x20..=0x7E => match c {
            0x26 | 0x3C | 0x3E => CharacterClass::Entity,
            _ => CharacterClass::Plain,
        },
        0xA0..=0xFF => CharacterClass::DecimalReference,
        _ => CharacterClass::NotAllowed,
    }
}

// Whether a tree document may hold a byte as a character.
pub fn allowed(c: u8) -> bool
    ensures { result ≡ model.allowed c }
{
    match class_of(c) {
        CharacterClass::NotAllowed => false,
        _ => true,
    }
}
