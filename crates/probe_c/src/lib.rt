// The functions of `probe` as C calls them, with the same contracts: nothing else is done here.
#![tactic(auto)]

ghost use Rattle.std.specs.Prelude.{◌≡◌, None, codes};
ghost use Rattle.probe.specs.Found.{size, found_in};
ghost use Rattle.probe.specs.Length.{length_read};
ghost use Rattle.resp.specs.Reading.{value};
ghost use Rattle.slot_map.specs.Table.{slots as answer_slots};

// How many bytes the one value at the front of `bytes` takes, with arrays nested at most `depth`
// deep; 0, which is no value's length, where there is none.
#[unsafe(no_mangle)]
pub extern "C" fn resp_value_len(bytes: &[u8], depth: u32) -> usize
    ensures value { result ≡ length_read depth bytes.now }
    ensures absent { result ≡ 0 → value depth bytes.now ≡ None }
{
    probe::resp_value_len(bytes, depth)
}

// How many ranges the table of a slot answer has, if `-` answered; the largest number where it is refused.
#[unsafe(no_mangle)]
pub extern "C" fn slots_read(answer: &[u8]) -> u64
    ensures { result ≡ size (answer_slots (codes "-") answer.now) }
{
    probe::slots_read(answer)
}

// What all the slots are worth in the table of a slot answer, so many times over; 0 where it is refused.
#[unsafe(no_mangle)]
pub extern "C" fn slots_found(answer: &[u8], slots: &[u8], rounds: u64) -> u64
    ensures { result ≡ found_in slots.now rounds (answer_slots (codes "-") answer.now) }
{
    probe::slots_found(answer, slots, rounds)
}
