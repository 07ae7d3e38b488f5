//! Two threads draw numbers from one ready queue.
ghost use Rattle.std.specs.Prelude.{◌≡◌, ◌<◌, length, All, IfSome, None, Some};

use std::process::Abort;
use std::sync::Wait;
use std::sync::atomic::{AtomicBool, Ordering};
use std::test::Fail;
use std::thread::{Threads, join, yield_now};
use tp_ready::{Answers, Hand, ReadyQueue, Turn};

const ROUNDS: u32 = 1000;

// Takes a number and puts it back, over and over. Answers whether each was with nobody else, and how often the queue was empty.
fn work<R: Wait>(
    rt: &R,
    queue: &ReadyQueue,
    mut hand: Hand,
    taken: &[AtomicBool],
) -> (Hand, bool, u32)
    requires { (hand.of ≡ Some queue.now) × (length taken.now ≡ queue.now.count) }
    ensures { result.0.of ≡ Some queue.now }
{
    let mut alone = true;
    let mut made = 0;
    for _ in 0..ROUNDS {
        if let Some(turn) = queue.take(rt, &mut hand, &mut Answers::new()) {
            let place = &taken[usize::from(turn.number())];
            alone = alone && !place.swap(true, Ordering::SeqCst);
            yield_now();
            place.store(false, Ordering::SeqCst);
            queue.put_back(rt, &mut hand, turn);
            made += 1;
        }
    }
    (hand, alone, made)
}

// The next number, which is there.
fn taken<R: Wait + Abort>(rt: &R, queue: &ReadyQueue, hand: &mut Hand) -> Turn
    requires { hand.old.of ≡ Some queue.now }
    ensures hand { hand.new.of ≡ None }
    ensures turn { (result.of ≡ queue.now) × (result.number < queue.now.count) }
{
    let Some(turn) = queue.take(rt, hand, &mut Answers::new()) else {
        panic!(rt; "a number is there")
    };
    turn
}

// Whether the queue has no number.
fn is_empty<R: Wait>(rt: &R, queue: &ReadyQueue, hand: &mut Hand) -> bool
    requires { hand.old.of ≡ Some queue.now }
    ensures { hand.new.of ≡ Some queue.now }
{
    let Some(turn) = queue.take(rt, hand, &mut Answers::new()) else {
        return true;
    };
    queue.put_back(rt, hand, turn);
    false
}

// Takes three numbers, finds the queue empty, and puts them back in another order: the second, the first and the third.
fn all_in_order<R: Wait + Abort>(
    rt: &R,
    queue: &ReadyQueue,
    first: &mut Hand,
    second: &mut Hand,
    third: &mut Hand,
    spare: &mut Hand,
) -> [u8; 3]
    requires hands { (first.old.of ≡ Some queue.now) × (second.old.of ≡ Some queue.now) }
    requires others { (third.old.of ≡ Some queue.now) × (spare.old.of ≡ Some queue.now) }
    ensures hands { (first.new.of ≡ Some queue.now) × (second.new.of ≡ Some queue.now) }
    ensures others { (third.new.of ≡ Some queue.now) × (spare.new.of ≡ Some queue.now) }
{
    let mut zero = taken(rt, queue, first);
    let mut one = taken(rt, queue, second);
    let two = taken(rt, queue, third);
    let numbers = [zero.number(), one.number(), two.number()];
    queue.apart(&mut zero, &mut one);
    assert!(rt; is_empty(rt, queue, spare));
    queue.put_back(rt, second, one);
    queue.put_back(rt, first, zero);
    queue.put_back(rt, third, two);
    numbers
}

fn next_hand(queue: &ReadyQueue, hands: &mut Vec<Hand>) -> Option<Hand>
    requires { All (λ hand. hand.of ≡ Some queue.now) hands.old.items }
    ensures rest { All (λ hand. hand.of ≡ Some queue.now) hands.new.items }
    ensures hand { IfSome result (λ hand. hand.of ≡ Some queue.now) }
{
    let _queue = queue;
    hands.pop()
}

// Whether one hand takes the numbers, each put back before the next.
fn come_in_order<R: Wait + Abort>(
    rt: &R,
    queue: &ReadyQueue,
    hand: &mut Hand,
    wanted: &[u8],
) -> bool
    requires { hand.old.of ≡ Some queue.now }
{
    let mut as_wanted = true;
    for number in wanted {
        let turn = taken(rt, queue, hand);
        as_wanted = as_wanted && turn.number() == *number;
        queue.put_back(rt, hand, turn);
    }
    as_wanted
}

// The numbers below 5 that one hand takes, five times in turn.
fn all_come<R: Wait + Abort>(rt: &R, queue: &ReadyQueue, hand: &mut Hand) -> [bool; 5]
    requires { (hand.old.of ≡ Some queue.now) × (queue.now.count ≡ 5) }
{
    let mut seen = [false; 5];
    for _ in 0..5 {
        let turn = taken(rt, queue, hand);
        seen[usize::from(turn.number())] = true;
        queue.put_back(rt, hand, turn);
    }
    seen
}

// Whether there are four hands, and the numbers come in order to them.
fn four_in_order<R: Wait + Abort>(rt: &R, queue: &ReadyQueue, hands: &mut Vec<Hand>) -> Option<bool>
    requires { All (λ hand. hand.of ≡ Some queue.now) hands.old.items }
{
    let Some(mut spare) = next_hand(queue, hands) else {
        return None;
    };
    let Some(mut third) = next_hand(queue, hands) else {
        return None;
    };
    let Some(mut second) = next_hand(queue, hands) else {
        return None;
    };
    let Some(mut first) = next_hand(queue, hands) else {
        return None;
    };
    let order = all_in_order(rt, queue, &mut first, &mut second, &mut third, &mut spare);
    let again = come_in_order(rt, queue, &mut spare, &[1, 0, 2, 1, 0, 2]);
    Some(hands.is_empty() && order == [0, 1, 2] && again)
}

#[test]
fn numbers_come_in_order(rt: HostRuntime) -> Result<(), Fail> {
    let (queue, mut hands) = ReadyQueue::start(&rt, rt.alloc(), 2, 4)?;
    let told = four_in_order(&rt, &queue, &mut hands);
    assert!(rt; told == Some(true));
    Ok(())
}

// What two threads leave that work with the queue, and whether each made all its rounds with numbers of its own.
fn race<R: Threads + Wait + Sync>(
    rt: &R,
    queue: &ReadyQueue,
    first: Hand,
    second: Hand,
    taken: &[AtomicBool],
) -> (Hand, Hand, bool)
    requires hands { (first.of ≡ Some queue.now) × (second.of ≡ Some queue.now) }
    requires places { length taken.now ≡ queue.now.count }
    ensures { (result.0.of ≡ Some queue.now) × (result.1.of ≡ Some queue.now) }
{
    let ((first, first_alone, first_made), (second, second_alone, second_made)) = join(
        rt,
        move || -> (Hand, bool, u32)
            requires { (first.of ≡ Some queue.now) × (length taken.now ≡ queue.now.count) }
            ensures { result.0.of ≡ Some queue.entry.now }
        { work(rt, queue, first, taken) },
        move || -> (Hand, bool, u32)
            requires { (second.of ≡ Some queue.now) × (length taken.now ≡ queue.now.count) }
            ensures { result.0.of ≡ Some queue.entry.now }
        { work(rt, queue, second, taken) },
    );
    let alone = first_alone && second_alone && first_made == ROUNDS && second_made == ROUNDS;
    (first, second, alone)
}

// Whether two hands draw the five numbers alone, and all come afterwards.
fn are_alone<R: Threads + Wait + Sync + Abort>(
    rt: &R,
    queue: &ReadyQueue,
    first: Hand,
    second: Hand,
) -> bool
    requires hands { (first.of ≡ Some queue.now) × (second.of ≡ Some queue.now) }
    requires five { queue.now.count ≡ 5 }
{
    let busy: [AtomicBool; 5] = [
        AtomicBool::new(false),
        AtomicBool::new(false),
        AtomicBool::new(false),
        AtomicBool::new(false),
        AtomicBool::new(false),
    ];
    let (mut first, _second, alone) = race(rt, queue, first, second, &busy);
    alone && all_come(rt, queue, &mut first) == [true; 5]
}

// Whether there are two hands that do.
fn two_are_alone<R: Threads + Wait + Sync + Abort>(
    rt: &R,
    queue: &ReadyQueue,
    hands: &mut Vec<Hand>,
) -> Option<bool>
    requires hands { All (λ hand. hand.of ≡ Some queue.now) hands.old.items }
    requires five { queue.now.count ≡ 5 }
{
    let Some(second) = next_hand(queue, hands) else {
        return None;
    };
    let Some(first) = next_hand(queue, hands) else {
        return None;
    };
    Some(are_alone(rt, queue, first, second))
}

#[test]
fn each_number_is_in_one_hand_at_a_time(rt: HostRuntime) -> Result<(), Fail> {
    let (queue, mut hands) = ReadyQueue::start(&rt, rt.alloc(), 4, 2)?;
    let told = two_are_alone(&rt, &queue, &mut hands);
    assert!(rt; told == Some(true));
    Ok(())
}
