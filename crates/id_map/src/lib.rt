// The transfer-ID map in lent bytes (RULES 8): its layout, setting one up, finding and storing an entry, and the faults that answer 20.
#![tactic(auto)]

pub mod entry;
pub mod find;
pub mod laws;
pub mod layout;
pub mod sound;

ghost use Rattle.std.specs.Prelude.{◌≡◌};
ghost use Rattle.id_map.specs.Layout as specs;
ghost use Rattle.id_map.specs.Setup.{returned, after_setup};

use answers::SetupError;

// The bytes that a map takes.
pub fn size() -> usize
    ensures { result ≡ specs.size }
{
    layout::SIZE
}

// Makes the lent bytes a map without an entry.
pub fn setup(map: &mut [u8]) -> Result<(), SetupError>
    ensures { returned result map.new ≡ after_setup map.old }
{
    if map.len() < layout::SIZE {
        return Err(SetupError::Short);
    }
    let zeros = [0u8; layout::SIZE];
    bits::part::copy_at(map, 0, &zeros);
    Ok(())
}
