// A returned value as C takes it.
ghost use Rattle.std.specs.Prelude.{◌≡◌, cond, ◌∷◌, length};
ghost use Rattle.lists.specs.Parts.{words, listed};
ghost use Rattle.model.specs.RecordWords.{value_of};
ghost use Rattle.model.specs.Table.{value_size};
ghost use Rattle.member_block.specs.Results.{returned_in};
ghost use Rattle.board.specs.Interface.{returned_size, returned_words};

use records::steps::store_value;

// A flag and a value, written to nine words.
pub fn hand_out(returned: &mut [u32], given: bool, value: [u32; 8])
    requires { length returned.old ≡ returned_size }
    ensures { returned.new ≡ cond given 1 0 ∷ listed value_size (value_of (words value)) }
{
    returned[0] = u32::from(given);
    store_value(returned, 1, value);
}

// What was returned: 1 and the value, or 0 and eight zeros.
pub fn hand_returned(returned: &mut [u32], value: Option<[u32; 8]>)
    requires { length returned.old ≡ returned_size }
    ensures { returned.new ≡ returned_words (returned_in value) }
{
    hand_out(returned, value.is_some(), value.unwrap_or([0; 8]));
}
