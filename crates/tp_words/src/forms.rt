//! The words of each command, but those of `run --stream`.

use crate::words::{Form, Word};

/// Says more of a refusal.
pub const EXPLAIN: Word = Word::Flag(
    "explain",
    "after a refusal, say which file, why, and what to do (on a terminal it does so anyway)",
);

/// Says more of a refusal, and, if all was done, of nodes that have halted.
const EXPLAIN_HALTED: Word = Word::Flag(
    "explain",
    "after a refusal, say which file, why, and what to do (on a terminal it does so anyway); if all was done, say which nodes have halted",
);

/// Says no more than a refusal's name.
pub const NO_EXPLAIN: Word = Word::Flag(
    "no-explain",
    "after a refusal, say only its name, even on a terminal",
);

/// Prints for scripts.
const JSON: Word = Word::Flag("json", "print it as one line of JSON, for scripts");

/// How long to wait for another process that holds the device.
pub const WAIT_LOCK: Word = Word::Value(
    "wait-lock",
    "SECONDS",
    "seconds to wait for another tpnet that holds DEVICE, 0 to 4294967 (0: refuse at once)",
);

/// The device of a command that only reads it.
const DEVICE: Word = Word::Place("DEVICE", "the device's file");

/// The device of a command that writes it.
pub const WRITTEN: Word = Word::Place("DEVICE", "the device's file, which is written");

const TOPOLOGY: Word = Word::Place("TOPOLOGY", "the text that names nodes, ports and wires");

const DIR: Word = Word::Place(
    "DIR",
    "the folder with an image NAME.img for each node NAME",
);

const NODE: Word = Word::Place("I", "the node's number, as in tpnet show");

/// Where the maps of a device's nodes are.
const MAPS: Word = Word::Value(
    "map",
    "FOLDER",
    "the folder of maps that tools/assemble --map wrote: I.map of node I, all.map of each node that has none",
);

/// The bytes that come in at a link of a node that is alone.
const LINK_INPUT: Word = Word::Many(
    "in",
    "L=FILE",
    "for each link L from 0 to 3 of an image: at its other end is somebody who sends FILE's bytes, and acknowledges what comes",
);

/// The instruction of an image before which it stops.
const UNTIL: Word = Word::Value(
    "until",
    "PLACE",
    "of an image: stop before the instruction there, an address of eight digits or a label of the map, and print the state",
);

/// The bytes of an image's memory after whose change it stops.
const WATCH: Word = Word::Value(
    "watch",
    "PLACE",
    "of an image: stop after what changed the bytes there, and print the state",
);

/// How many bytes these are.
const WATCHED_BYTES: Word = Word::Value(
    "bytes",
    "N",
    "with --watch: how many bytes, 1 to 1024 (4)",
);

pub const TRY: Form = Form {
    name: "try",
    about: "Runs one node without a device: with --turns its link 0 is wired to port 0, whose output it prints; without it the node makes steps, with nobody at its links but those of --in, and it prints what goes out there, and the state in the end",
    words: &[
        EXPLAIN_HALTED,
        NO_EXPLAIN,
        Word::Place("IMAGE", "the node's image: 172 bytes and its memory"),
        Word::Alone(
            "turns",
            "N",
            &["steps", "in", "map", "until", "watch", "bytes"],
            "how many turns: node, host, node, host ..; without it the node makes steps",
        ),
        Word::Value(
            "steps",
            "N",
            "how many steps at most, with what comes in, 1 to 4294967295 (100)",
        ),
        LINK_INPUT,
        Word::Value(
            "map",
            "FILE",
            "the map that tools/assemble --map wrote, which names addresses",
        ),
        UNTIL,
        WATCH,
        WATCHED_BYTES,
    ],
};

pub const TRACE: Form = Form {
    name: "trace",
    about: "Prints a line for each step of one node, with the registers after it: of an image, with nobody at its links except those of --in, or of a device, as its journal has it",
    words: &[
        EXPLAIN,
        NO_EXPLAIN,
        Word::Value(
            "map",
            "FILE",
            "the map that tools/assemble --map wrote; with I the folder of maps: I.map of node I, all.map of each node that has none",
        ),
        Word::Place(
            "FILE",
            "the node's image: 172 bytes and its memory; with I the device's file",
        ),
        Word::Instead(
            "I",
            &["steps"],
            "the node's number, as in tpnet show: FILE is then a device, and it prints what the journal's entries did at that node",
        ),
        Word::Value(
            "steps",
            "N",
            "without I: how many steps at most, with what comes in, 1 to 4294967295 (100 by default)",
        ),
        LINK_INPUT,
        UNTIL,
        WATCH,
        WATCHED_BYTES,
        Word::Value("from", "N", "with I: the number of the first entry"),
        Word::Value("to", "N", "with I: the number of the last entry"),
    ],
};

pub const CHECK: Form = Form {
    name: "check",
    about: "Reads a topology and its images as format does, writes nothing, and says how large an area has to be",
    words: &[EXPLAIN, NO_EXPLAIN, JSON, TOPOLOGY, DIR],
};

pub const FORMAT: Form = Form {
    name: "format",
    about: "Makes a device from a topology and the nodes' images, over a file that is there unless --new is given",
    words: &[
        EXPLAIN,
        NO_EXPLAIN,
        Word::Flag("new", "refuse a file that is there already"),
        WAIT_LOCK,
        Word::Value("area", "SIZE", "AREA, as an option"),
        Word::Place(
            "DEVICE",
            "the file that is made, with 512 + 2 AREA bytes, or 1024 + 2 AREA for more than 16 nodes, or more than 256 pages in one",
        ),
        TOPOLOGY,
        DIR,
        Word::Instead(
            "AREA",
            &["area"],
            "the bytes of each of the two areas, up to 2^40: a decimal number, maybe with K, M or G after it, such as 64K (by default the least with room for 65536 journal entries between two checkpoints, as tpnet check says)",
        ),
    ],
};

pub const RUN: Form = Form {
    name: "run",
    about: "Opens a device, runs its network, keeps the journal on it, prints what the port puts out, and says next M on standard error",
    words: &[
        EXPLAIN_HALTED,
        NO_EXPLAIN,
        WRITTEN,
        Word::Needed(
            "turns",
            "N",
            "turns that all workers make together, 0 to 4294967295",
        ),
        Word::Value(
            "workers",
            "W",
            "threads that make turns, 1 to 16 (2 by default)",
        ),
        Word::Value(
            "quantum",
            "Q",
            "steps that a turn may run, 1 to 4096 (1024)",
        ),
        Word::Value(
            "spare",
            "S",
            "spare frames of each node, for writes while pages are frozen, 0 to the pages of the smallest node (4)",
        ),
        Word::Value(
            "every",
            "E",
            "entries since the kept cut after which a snapshot begins, 1 to 4294967295 (by default when the journal is half full)",
        ),
        Word::Value(
            "port",
            "P",
            "the port that input goes to and output comes from (0)",
        ),
        Word::Value(
            "in",
            "FILE",
            "the port's whole input, from position 0; what the port has accepted before is skipped (no input)",
        ),
        WAIT_LOCK,
        Word::Flag(
            "stream",
            "attach ports to files and standard streams: see tpnet run --stream --help",
        ),
    ],
};

pub const STOP: Form = Form {
    name: "stop",
    about: "Asks the stream that another tpnet runs on a device to end, as it does by --stop-file, and prints asked; with --wait it waits for that, and prints ended",
    words: &[
        EXPLAIN,
        NO_EXPLAIN,
        Word::Place("DEVICE", "the device's file, to which nothing is written"),
        Word::Value(
            "wait",
            "SECONDS",
            "seconds to wait until no other tpnet holds DEVICE, 1 to 4294967 (without it, it asks and doesn't wait)",
        ),
    ],
};

pub const COMPACT: Form = Form {
    name: "compact",
    about: "Writes all of a device's network into its other area, which empties the journal, and prints the generation, the number of the next entry and how many entries the journal takes",
    words: &[EXPLAIN, NO_EXPLAIN, WRITTEN, WAIT_LOCK],
};

pub const BACKUP: Form = Form {
    name: "backup",
    about: "Opens a device, which may be run meanwhile, writes nothing to it, makes a copy of it, and prints the number of the copy's next entry",
    words: &[
        EXPLAIN,
        NO_EXPLAIN,
        Word::Place("DEVICE", "the device's file, which is only read"),
        Word::Place(
            "COPY",
            "the file that is made, as COPY.part first: nothing may be at either path yet",
        ),
    ],
};

pub const RECOVER: Form = Form {
    name: "recover",
    about: "Opens a device, writes nothing, and prints the number of the next entry",
    words: &[
        EXPLAIN,
        NO_EXPLAIN,
        DEVICE,
        Word::Value(
            "workers",
            "W",
            "threads that replay the nodes, 1 to 16 (1 by default); the answer doesn't depend on their number",
        ),
    ],
};

pub const SHOW: Form = Form {
    name: "show",
    about: "Opens a device, writes nothing, and prints what it holds",
    words: &[EXPLAIN, NO_EXPLAIN, JSON, DEVICE],
};

pub const STATUS: Form = Form {
    name: "status",
    about: "Opens a device, writes nothing, and prints in one line whether another tpnet runs it, and how far it is",
    words: &[
        EXPLAIN,
        NO_EXPLAIN,
        Word::Flag("json", "print each check as one line of JSON, for scripts"),
        DEVICE,
        Word::Value(
            "every",
            "S",
            "check again every S seconds, 1 to 4294967295, until it is interrupted (without it, it checks once)",
        ),
    ],
};

pub const WAITS: Form = Form {
    name: "waits",
    about: "Prints of each node whether it rests, which of its processes wait at links, for whom and why, and what that adds up to",
    words: &[
        EXPLAIN,
        NO_EXPLAIN,
        JSON,
        Word::Unless("dot", &["json"], "draw it, as a graph for Graphviz"),
        MAPS,
        DEVICE,
    ],
};

pub const NODES: Form = Form {
    name: "node",
    about: "Prints a node's registers, queues and link ends, addresses in hexadecimal",
    words: &[EXPLAIN, NO_EXPLAIN, JSON, MAPS, DEVICE, NODE],
};

pub const IMAGE: Form = Form {
    name: "image",
    about: "Prints a node's image, as bytes",
    words: &[EXPLAIN, NO_EXPLAIN, DEVICE, NODE],
};

pub const JOURNAL: Form = Form {
    name: "journal",
    about: "Prints a line for each journal entry since the checkpoint, with its number",
    words: &[
        EXPLAIN,
        NO_EXPLAIN,
        Word::Flag("json", "print each entry as one line of JSON, for scripts"),
        DEVICE,
        Word::Value("from", "N", "the first number that is shown"),
        Word::Value("to", "N", "the last number that is shown"),
        Word::Value(
            "node",
            "I",
            "only what node I did: its turns, its runs, and what it took; nothing of the host",
        ),
        Word::Value("last", "K", "only the last K of these"),
    ],
};

pub const PORT: Form = Form {
    name: "port",
    about: "Prints a port's bytes as they are: the outputs that aren't confirmed, or the inputs that are pending",
    words: &[
        EXPLAIN,
        NO_EXPLAIN,
        JSON,
        DEVICE,
        Word::Place("P", "the port's number"),
        Word::Flag("pending", "the inputs that no node has taken"),
        Word::Unless(
            "outputs",
            &["pending"],
            "the outputs that aren't confirmed (this is the default)",
        ),
    ],
};
