// What follows from the definitions, as the contract of a function.
ghost use Rattle.store.specs.Theorems.{DirectMapped, Rotates};

// The table shows the newest entry of each slot for that entry's key, and nothing else.
pub fn table_is_direct_mapped()
    ensures { DirectMapped }
{}

// To rotate a word is to move its highest bits below the others.
pub fn rotation_moves_high_bits_down()
    ensures { Rotates }
{}
