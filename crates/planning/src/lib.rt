// Upload planning: maps, plan and working room as numbers or as their bytes, choices of bytes.
#![tactic(auto)]

pub mod cost;
pub mod refusal;
pub mod room;

ghost use Rattle.std.specs.Prelude.{◌≡◌, false, [], ◌∷◌, ◌+◌, ◌*◌, ◌≤◌, ◌<◌, length, take, drop, get_or, IfOk, IfErr};
ghost use Rattle.std.proofs.lemmas.List.Edits.{sets};
ghost use Rattle.wire.specs.First.{first};
ghost use Rattle.upload.specs.Sizes.{most_points, plan_size, room_size, choices_size, batch_size};
ghost use Rattle.upload.specs.Cost.{differs};
ghost use Rattle.upload.specs.Plan.{followed};
ghost use Rattle.upload.specs.Plain.{MapsLent};
ghost use Rattle.upload.specs.Planning.{«points_wrong», «lengths_wrong», lengths, refusals_of, Measured, Followable, PlanWritten};
ghost use Rattle.planning.specs.Refusals.{status_of};
ghost use Rattle.planning.specs.Lengths.{asked};
ghost use Rattle.planning.specs.Made.{Small, Made};

use batch::{Batch, Sent};
pub use cost::CostBehind;
pub use refusal::Refusal;
pub use room::Room;
use tables::Table;
use wire::Element;

// The points of a full map.
pub const MOST_POINTS: u32 = 1984;

// The points of a full packet.
pub const MOST_COUNT: u32 = 126;

// The plan's 16-bit numbers.
pub const PLAN_SIZE: usize = 3968;

// The working room's 32-bit numbers.
pub const ROOM_SIZE: usize = 127;

// The bytes for choices.
pub const CHOICES_SIZE: usize = 1984;

// The bytes that hold any batch.
pub const BATCH_SIZE: usize = 8032;

// The map held, and the one wanted, of 16-bit numbers.
#[derive(Drop)]
pub struct Maps<'a, T: Element> {
    pub held: &'a [T],
    pub wanted: &'a [T],
    ghost held_small: { Small (T.numbers held.now) },
    ghost wanted_small: { Small (T.numbers wanted.now) },
}

// What planning writes: the plan, the working room, the choices and the batch of packets.
#[derive(Drop)]
pub struct Lists<'a, T: Table, R: Room> {
    pub plan: &'a mut [T],
    pub room: &'a mut [R],
    pub choices: &'a mut [u8],
    pub batch: &'a mut [u8],
}

fn points_wrong(points: u32) -> bool
    ensures { result ≡ «points_wrong» points }
{
    (points == 0) | (MOST_POINTS < points)
}

impl<'a, T: Element> Maps<'a, T> {
    pub fn new(held: &'a [T], wanted: &'a [T]) -> Maps<'a, T>
        requires { Small (T.numbers held.now) × Small (T.numbers wanted.now) }
        ensures { (result.held.now ≡ held.now) × (result.wanted.now ≡ wanted.now) }
    {
        Maps { held, wanted }
    }

    // Whether a point differs.
    fn differs_at(&self, i: usize) -> bool
        requires { (2 * i + 1 < length (T.numbers self.now.held.now))
            × (2 * i + 1 < length (T.numbers self.now.wanted.now)) }
        ensures { result
            ≡ get_or (differs (T.numbers self.now.held.now) (T.numbers self.now.wanted.now)) i false }
    {
        point(self.held, i) != point(self.wanted, i)
    }
}

// A point's two numbers as one: to compare them one by one takes a branch more, which costs time.
fn point<T: Element>(map: &[T], i: usize) -> u32
    requires { 2 * i + 1 < length (T.numbers map.now) }
    ensures { result
        ≡ get_or (T.numbers map.now) (2 * i) 0 + 65536 * get_or (T.numbers map.now) (2 * i + 1) 0 }
{
    T::number(map, 2 * i) as u32 + 65536 * T::number(map, 2 * i + 1) as u32
}

// The least bytes for an upload, from the last point back: fills the room and the choices, as far
// as they reach. What lies behind the room's numbers stays.
pub fn measure<T: Element, R: Room>(
    maps: &Maps<T>,
    room: &mut [R],
    choices: &mut [u8],
    n: usize,
) -> u32
    requires { MapsLent 2 n (T.numbers maps.now.held.now) (T.numbers maps.now.wanted.now) }
    ensures measured { Measured n (T.numbers maps.now.held.now) (T.numbers maps.now.wanted.now)
        (length (R.longs room.old)) (length choices.old) result (R.longs room.new) choices.new }
    ensures behind { drop (R.WIDTH * length (R.longs room.old)) room.new
        ≡ drop (R.WIDTH * length (R.longs room.old)) room.old }
{
    R::clear(room);
    choices.fill(0);
    let mut p = CostBehind::at_end();
    for i in (0..n).rev() {
        p = p.choose(maps.differs_at(i), choices, i);
        R::keep(room, i, p.least);
    }
    p.least
}

// One packet of the plan: start and count.
fn put_part<T: Table>(plan: &mut [T], p: usize, start: usize, count: usize)
    requires { (2 * p + 1 < length (T.numbers plan.old)) × (start < 65536) × (count < 65536) }
    ensures { T.numbers plan.new ≡ sets (T.numbers plan.old) (2 * p) (start ∷ count ∷ []) }
{
    T::put(plan, 2 * p, start as u16);
    T::put(plan, 2 * p + 1, count as u16);
}

// Writes the plan and into the batch, by following the choices, one for each point.
fn follow<T: Table>(wanted: &[T], plan: &mut [T], choices: &[u8], batch: &mut Batch) -> Sent
    requires { Followable choices.now
        × (length (T.numbers wanted.now) ≡ 2 * length choices.now)
        × (length (T.numbers plan.old) ≡ plan_size)
        × (batch_size ≤ length batch.old.buffer.now)
        × (batch.old.filled ≡ 0) }
    ensures written { PlanWritten (T.numbers wanted.now) (followed 0 0 choices.now)
        (T.numbers plan.old) batch.old.buffer.now (T.numbers plan.new) batch.new.buffer.now
        result.packets result.bytes }
    ensures named { batch.new.buffer.ghost_name ≡ batch.old.buffer.ghost_name }
{
    let mut packets = 0;
    let mut i = 0;
    // No `for`: a step is a packet's points, or one that is passed.
    while i < choices.len() {
        let count = choices[i] as usize;
        if 0 < count {
            put_part(plan, packets, i, count);
            batch.put_packet(wanted, i, count);
            packets += 1;
            i += count;
        } else {
            i += 1;
        }
    }
    Sent {
        packets,
        bytes: batch.filled,
    }
}

// The same from the start of a buffer on.
fn write<T: Table>(wanted: &[T], plan: &mut [T], choices: &[u8], batch: &mut [u8]) -> Sent
    requires { Followable choices.now
        × (length (T.numbers wanted.now) ≡ 2 * length choices.now)
        × (length (T.numbers plan.old) ≡ plan_size)
        × (batch_size ≤ length batch.old) }
    ensures { PlanWritten (T.numbers wanted.now) (followed 0 0 choices.now)
        (T.numbers plan.old) batch.old (T.numbers plan.new) batch.new
        result.packets result.bytes }
{
    let mut batch = Batch {
        buffer: batch,
        filled: 0,
    };
    follow(wanted, plan, choices, &mut batch)
}

impl<'a, T: Table, R: Room> Lists<'a, T, R> {
    // Whether a list is not as long as maps of so many points ask for.
    fn wrong(&self, maps: &Maps<T>, points: usize) -> bool
        requires { points ≤ most_points }
        ensures { result ≡ «lengths_wrong»
            (lengths (length maps.now.held.now) (length maps.now.wanted.now)
            (length self.now.plan.now) (length self.now.room.now)
            (length self.now.choices.now) (length self.now.batch.now))
            (asked T.WIDTH R.WIDTH points) }
    {
        let map = T::WIDTH * 2 * points;
        !((maps.held.len() == map)
            & (maps.wanted.len() == map)
            & (self.plan.len() == T::WIDTH * PLAN_SIZE)
            & (R::WIDTH * ROOM_SIZE <= self.room.len())
            & (CHOICES_SIZE <= self.choices.len())
            & (BATCH_SIZE <= self.batch.len()))
    }
}

// The room and the choices by measuring, plan and batch by the choices.
fn make<T: Table, R: Room>(
    maps: &Maps<T>,
    n: usize,
    plan: &mut [T],
    room: &mut [R],
    choices: &mut [u8],
    batch: &mut [u8],
) -> Sent
    requires points { «points_wrong» n ≡ false }
    requires lent { «lengths_wrong»
        (lengths (length maps.now.held.now) (length maps.now.wanted.now) (length plan.old)
        (length room.old) (length choices.old) (length batch.old))
        (asked T.WIDTH R.WIDTH n) ≡ false }
    ensures made { Made n (T.numbers maps.now.held.now) (T.numbers maps.now.wanted.now)
        (T.numbers plan.old) choices.old batch.old
        (T.numbers plan.new) (R.longs (take (R.WIDTH * room_size) room.new))
        choices.new batch.new result }
    ensures behind { drop (R.WIDTH * room_size) room.new ≡ drop (R.WIDTH * room_size) room.old }
{
    measure(
        maps,
        &mut room[..R::WIDTH * ROOM_SIZE],
        &mut choices[..CHOICES_SIZE],
        n,
    );
    write(maps.wanted, plan, &choices[..n], batch)
}

// Plans the upload of wanted over held.
pub fn plan<T: Table, R: Room>(
    points: u32,
    maps: &Maps<T>,
    lists: &mut Lists<T, R>,
) -> Result<Sent, Refusal>
    ensures judged { status_of result ≡ first (refusals_of points
        (lengths (length maps.now.held.now) (length maps.now.wanted.now)
        (length lists.old.plan.now) (length lists.old.room.now)
        (length lists.old.choices.now) (length lists.old.batch.now))
        (asked T.WIDTH R.WIDTH points)) }
    ensures refused { IfErr result (λ why. lists.new ≡ lists.old) }
    ensures made { IfOk result (λ sent. Made points
        (T.numbers maps.now.held.now) (T.numbers maps.now.wanted.now)
        (T.numbers lists.old.plan.now) lists.old.choices.now lists.old.batch.now
        (T.numbers lists.new.plan.now) (R.longs (take (R.WIDTH * room_size) lists.new.room.now))
        lists.new.choices.now lists.new.batch.now sent) }
    ensures behind { drop (R.WIDTH * room_size) lists.new.room.now
        ≡ drop (R.WIDTH * room_size) lists.old.room.now }
    ensures plan_named { lists.new.plan.ghost_name ≡ lists.old.plan.ghost_name }
    ensures room_named { lists.new.room.ghost_name ≡ lists.old.room.ghost_name }
    ensures choices_named { lists.new.choices.ghost_name ≡ lists.old.choices.ghost_name }
    ensures batch_named { lists.new.batch.ghost_name ≡ lists.old.batch.ghost_name }
{
    if points_wrong(points) {
        return Err(Refusal::PointsWrong);
    }
    let n = points as usize;
    if lists.wrong(maps, n) {
        return Err(Refusal::LentWrong);
    }
    Ok(make(maps, n, lists.plan, lists.room, lists.choices, lists.batch))
}
