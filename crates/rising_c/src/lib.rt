// The rising test of 35h as a static library of its own, for measuring: it calls the entry of
// rising that has its name, under the same clause.
#![tactic(auto)]

ghost use Rattle.rising.specs.Alone.{RisingTold};

// Judges the two lists as a 35h write in mode 1 that carries them: status 0, 9 or 10, and with 10
// the place of the first entry at fault.
#[unsafe(no_mangle)]
pub extern "C" fn vermolgas_rising(lists: &[u8]) -> u64
    ensures { RisingTold lists.now result }
{
    rising::vermolgas_rising(lists)
}
