// What the caller lends the front end, of the right lengths.
ghost use Rattle.std.specs.Prelude.{◌≡◌, ◌*◌, length};
ghost use Rattle.settings.specs.Layout.{block_size};
ghost use Rattle.settings.specs.Reset.{map_size, gains_size};

use wire::Element;

// Rules 1.1 and 1.3: settings, staged and live map, and gains, of the lengths that they must have.
#[derive(Drop)]
pub(crate) struct State<'a, T: Element> {
    pub block: &'a mut [u8],
    pub staged: &'a mut [T],
    pub live: &'a mut [T],
    pub gains: &'a mut [T],
    ghost block_long: { length block.now ≡ block_size },
    ghost staged_long: { length staged.now ≡ T.WIDTH * map_size },
    ghost live_long: { length live.now ≡ T.WIDTH * map_size },
    ghost gains_long: { length gains.now ≡ T.WIDTH * gains_size },
}
