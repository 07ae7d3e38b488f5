//! Images of nodes that send to each other.

ghost use Rattle.std.specs.Prelude.{◌<◌};

use std::alloc::{AllocError, Global};
use tp_tests_fixtures::{HEAD, idle, letter, place};

/// Pseudo-random numbers, alike at each run.
#[derive(Drop)]
pub(crate) struct Chance {
    pub(crate) state: u64,
}

impl Chance {
    /// The next number, below `bound`.
    pub(crate) fn below(&mut self, bound: u8) -> u8
        requires { 0 < bound }
        ensures { result < bound }
    {
        self.state = self
            .state
            .wrapping_mul(6_364_136_223_846_793_005)
            .wrapping_add(1_442_695_040_888_963_407);
        ((self.state >> 33) % u64::from(bound)) as u8
    }
}

/// What a process of a node does over and over, on links.
#[derive(Clone, Copy)]
pub(crate) enum Task {
    /// It sends a byte that grows by 1.
    Send(u8),
    /// It hears a byte on the first link, and sends it on the second.
    Relay(u8, u8),
    /// It sends the byte 58 once, and waits for its acknowledge.
    Once(u8),
    /// It is the node that sends letters, which has no other task.
    Letters,
}

/// Where the instructions of each process are, and its workspace, and the one after it, from the beginning of memory on.
const PLACES: [(u16, u16, u16); 4] = [
    (0x100, 0x200, 0x640),
    (0x110, 0x640, 0xA80),
    (0x120, 0xA80, 0xEC0),
    (0x130, 0xEC0, 0x200),
];

/// The instructions of a process.
fn code(task: Task) -> [u8; 13] {
    match task {
        // ldl 1; adc 1; stl 1; mint; ldnlp link; ldl 1; outbyte; j -10
        Task::Send(link) => [
            0x71,
            0x81,
            0xD1,
            0x24,
            0xF2,
            0x50 | link,
            0x71,
            0xFE,
            0x60,
            6,
            0,
            0,
            0,
        ],
        // ldlp 1; mint; ldnlp 4 + from; ldc 1; in; mint; ldnlp to; ldl 1; outbyte; j -13
        Task::Relay(from, to) => [
            0x11,
            0x24,
            0xF2,
            0x54 | from,
            0x41,
            0xF7,
            0x24,
            0xF2,
            0x50 | to,
            0x71,
            0xFE,
            0x60,
            3,
        ],
        // mint; ldnlp link; ldc 58; outbyte; stopp
        Task::Once(link) => [
            0x24,
            0xF2,
            0x50 | link,
            0x25,
            0x48,
            0xFE,
            0x21,
            0xF5,
            0,
            0,
            0,
            0,
            0,
        ],
        // the image has its own
        Task::Letters => [0; 13],
    }
}

/// The address of a place of memory.
fn address(offset: u16) -> [u8; 4] {
    let [low, high] = offset.to_le_bytes();
    [low, high, 0, 0x80]
}

/// Puts a process into an image, as the last one of the low queue.
fn place_process(image: &mut [u8], task: Task, (first, workspace, next): (u16, u16, u16)) {
    let at = HEAD + usize::from(workspace);
    place(image, HEAD + usize::from(first), &code(task));
    place(image, at - 4, &address(first));
    place(image, at - 8, &address(next));
    place(image, 36, &address(workspace));
}

/// Puts processes into an image, as its low queue.
fn place_processes(image: &mut [u8], tasks: &[Task]) {
    for (task, places) in tasks.iter().zip(&PLACES) {
        place_process(image, *task, *places);
    }
    if !tasks.is_empty() {
        place(image, 32, &address(0x200));
    }
}

/// The image of a node of four pages whose low queue has a process for each of `tasks`, four at most.
pub(crate) fn image(alloc: Global, tasks: &[Task]) -> Result<Vec<u8>, AllocError> {
    if matches!(tasks, [Task::Letters]) {
        return letter(alloc);
    }
    let mut image = idle(alloc)?;
    place_processes(&mut image, tasks);
    Ok(image)
}

/// What sends on a link: bytes of its own, or those that come in on another link.
fn drawn_task(chance: &mut Chance, turned: u8, link: u8) -> Task {
    match chance.below(3) {
        0 => Task::Send(link),
        _ => Task::Relay((link ^ turned) % 4, link),
    }
}

/// The image of a node that sends on each of its links.
pub(crate) fn drawn_image(alloc: Global, chance: &mut Chance) -> Result<Vec<u8>, AllocError> {
    let turned = chance.below(4);
    let tasks = [
        drawn_task(chance, turned, 0),
        drawn_task(chance, turned, 1),
        drawn_task(chance, turned, 2),
        drawn_task(chance, turned, 3),
    ];
    image(alloc, &tasks)
}
