//! The queue beside a sorted list.

ghost use Rattle.std.specs.Prelude.{◌+◌, ◌<◌, ◌≤◌, length};
ghost use Rattle.event_order.specs.Pending.{Among};
ghost use Rattle.pending_queue.specs.declared.tests.Token.{Token as TokenValue};

use crate::Pending;
use event_order::{Key, Keyed};
use rand_core::SeedableRng;
use rand_core::utils::NextWord;
use rand_pcg::Pcg32;
use std::alloc::{AllocError, Global};

#[derive(Clone, Copy, Debug, PartialEq, Eq, PartialOrd, Ord)]
struct Token {
    key: Key,
}

impl Keyed for Token {
    ghost key_of = { λ token. token.key };

    fn key(&self) -> Key {
        self.key
    }
}

/// How the times of the items are drawn.
#[derive(Clone, Copy, Debug)]
enum Times {
    /// Within 64 ticks, and one in eight at 10^18.
    Clustered,
    /// Over 4 * 10^17 ticks.
    Spread,
    Equal,
    Rising,
    Falling,
}

fn token_at(time: u64, round: u64, channel: u32) -> Token {
    Token {
        key: Key {
            time,
            round,
            priority: 0,
            channel,
            number: 0,
        },
    }
}

// Puts in an item with a channel above those of all others, and says whether there was memory.
fn put_in(queue: &mut Pending<Token>, time: u64, round: u64, channel: u32) -> bool
    requires { (other : TokenValue) → Among other queue.old.items → other.key.channel < channel }
    ensures { (other : TokenValue) → Among other queue.new.items → other.key.channel < channel + 1 }
{
    let key = Key {
        time,
        round,
        priority: 0,
        channel,
        number: 0,
    };
    queue.insert(Token { key }).is_ok()
}

// Takes one item after another, and says whether they are those of the list and no more.
fn hands_out(queue: &mut Pending<Token>, want: &[Token]) -> bool {
    queue.keys_rise();
    for token in want {
        if queue.least().copied() != Some(*token) || queue.take_least() != Some(*token) {
            return false;
        }
    }
    queue.len() == 0 && queue.least().is_none() && queue.take_least().is_none()
}

// Takes the first item of a list, where it has one.
fn take_first(want: &mut Vec<Token>) -> Option<Token> {
    if want.is_empty() {
        None
    } else {
        Some(want.remove(0))
    }
}

// Takes an item from the queue and from the list, and says whether they are the same.
fn take_from_both(queue: &mut Pending<Token>, want: &mut Vec<Token>, channel: u32) -> bool
    requires { (other : TokenValue) → Among other queue.old.items → other.key.channel < channel }
    ensures { (other : TokenValue) → Among other queue.new.items → other.key.channel < channel + 1 }
{
    let seen = queue.least().copied();
    let taken = queue.take_least();
    let is_seen = taken == seen;
    let is_first = taken == take_first(want);
    is_seen & is_first
}

// Puts an item into a sorted list.
fn put_in_order(want: &mut Vec<Token>, token: Token) -> Result<(), AllocError> {
    let at = match want.binary_search(&token) {
        Ok(at) => at,
        Err(at) => at,
    };
    want.insert(at, token)?;
    Ok(())
}

fn time_of(times: Times, random: &mut Pcg32, channel: u32) -> u64 {
    let word = u64::from(random.next_word());
    match times {
        Times::Clustered if word % 8 == 0 => 1_000_000_000_000_000_000,
        Times::Clustered => word / 8 % 64,
        Times::Spread => word.saturating_mul(100_000_000),
        Times::Equal => 7,
        Times::Rising => u64::from(channel),
        Times::Falling => u64::from(u32::MAX - channel),
    }
}

// In how many of four steps an item comes.
fn comes_of(step: u32) -> u32 {
    if step < 1200 || step >= 3000 { 3 } else { 1 }
}

// Puts an item in or takes one, in the queue and in the list, and says whether both answer alike.
fn goes_on(
    queue: &mut Pending<Token>,
    want: &mut Vec<Token>,
    random: &mut Pcg32,
    time: u64,
    channel: u32,
) -> Result<bool, AllocError>
    requires { (other : TokenValue) → Among other queue.old.items → other.key.channel < channel }
    ensures { (other : TokenValue) → Among other queue.new.items → other.key.channel < channel + 1 }
{
    if random.next_word() % 4 < comes_of(channel) {
        let round = u64::from(random.next_word() % 1000);
        put_in_order(want, token_at(time, round, channel))?;
        Ok(put_in(queue, time, round, channel))
    } else {
        Ok(take_from_both(queue, want, channel))
    }
}

// Whether the queue hands out what a sorted list does, over 4,200 steps: first mostly items come,
// then they go until none is left, and then they come again.
fn goes_beside_a_list(alloc: Global, times: Times) -> Result<bool, AllocError> {
    let mut random = Pcg32::seed_from_u64(11);
    let mut queue: Pending<Token> = Pending::new(alloc);
    let mut want = Vec::new(alloc);
    let mut all = true;
    let mut emptied = false;
    for channel in 0..4200_u32 {
        let time = time_of(times, &mut random, channel);
        all &= goes_on(&mut queue, &mut want, &mut random, time, channel)?;
        all &= queue.len() == want.len();
        emptied |= channel > 1200 && want.is_empty();
    }
    Ok(all && emptied && want.len() > 500 && hands_out(&mut queue, &want))
}

#[test]
fn goes_beside_a_sorted_list(rt: HostRuntime) -> Result<(), AllocError> {
    for times in [
        Times::Clustered,
        Times::Spread,
        Times::Equal,
        Times::Rising,
        Times::Falling,
    ] {
        assert!(rt; goes_beside_a_list(rt.alloc(), times)?, "{times:?}");
    }
    Ok(())
}

// Whether the items of these times come out in the order of `want`, after room was made for them.
fn hands_out_in_order(alloc: Global, times: &[u64], want: &[Token]) -> bool
    requires { length times.now ≤ 5 }
{
    let mut queue = Pending::new(alloc);
    let mut all = queue.least().is_none() && queue.reserve(times.len()).is_ok();
    let mut channel = 0;
    for time in times {
        all &= put_in(&mut queue, *time, 0, channel);
        channel += 1;
    }
    all && hands_out(&mut queue, want)
}

#[test]
fn hands_out_by_time(rt: HostRuntime) {
    let want = [token_at(1, 0, 1), token_at(2, 0, 2), token_at(3, 0, 0)];
    assert!(rt; hands_out_in_order(rt.alloc(), &[3, 1, 2], &want));
}

// One time far from the others, and one that two items have.
#[test]
fn hands_out_one_far_away(rt: HostRuntime) {
    let times = [0, 1_000_000_000_000_000_000, 5, 21, 5];
    let want = [
        token_at(0, 0, 0),
        token_at(5, 0, 2),
        token_at(5, 0, 4),
        token_at(21, 0, 3),
        token_at(1_000_000_000_000_000_000, 0, 1),
    ];
    assert!(rt; hands_out_in_order(rt.alloc(), &times, &want));
}

// Whether so many items can be put in after room was made for them, and then come out.
fn has_room_for(alloc: Global, count: u32) -> Result<bool, AllocError> {
    let mut queue = Pending::new(alloc);
    let mut want = Vec::new(alloc);
    let mut all = queue.reserve(count as usize).is_ok();
    for channel in 0..count {
        all &= put_in(&mut queue, 7, 0, channel);
        want.push(token_at(7, 0, channel))?;
    }
    Ok(all && hands_out(&mut queue, &want))
}

#[test]
fn has_the_room_that_was_made(rt: HostRuntime) -> Result<(), AllocError> {
    for count in [0, 1, 16, 300] {
        assert!(rt; has_room_for(rt.alloc(), count)?, "{count}");
    }
    Ok(())
}
