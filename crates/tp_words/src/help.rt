//! What the help of each command says of its refusals.

/// What the lines of `tpnet try` mean, and what it refuses.
pub const TRY_REFUSALS: &str =
    "With --turns it prints the bytes that port 0 puts out, at most 4096, and nothing else.
Else it prints, of the lines of tpnet trace IMAGE, those in which a byte goes out: sends, the link, and Data with the byte. Then it says why it
ends, and prints registers, queues, the workspace's first words and the bytes of --watch:
  waits                no process can run, and one waits at a link
  idle                 no process can run, and none waits at a link
  halted FAULT at ADDRESS   the node has halted at the instruction there
  stop until ADDRESS   the instruction there is the next step
  stop watch           the last step, or what came in, changed one of the bytes
  stop steps           it has made --steps steps
Nobody is at a link without --in: nothing comes in, what is sent is lost and never acknowledged, so a process that sends or waits there stops for good.
Refusals (status 1):
  ReadFailed    IMAGE, the map or a file of --in can't be read: look at its path and its rights
  BadMap L      line L of the map is none of a map: make the map anew, by tools/assemble --map
  NoPlace       PLACE is neither an address of eight digits with capital letters nor a label of the map, or that of --watch is below 80000000
  BadImage      IMAGE is no node's image, or, with --turns, a link of it is at work: make it with tools/make-image
  DeviceFailed  standard output can't be written
  Memory        there is no memory left: take an image with fewer pages";

/// What the lines of `tpnet trace` mean, and what it refuses.
pub const TRACE_REFUSALS: &str =
    "A line has the step's number, the address of the instruction, and the instruction. Then it has, as they are after the step, A, B, C, the
workspace Wptr, what runs (high, low or idle), and error if Error is set. If something leaves, it has sends, the link and the token. With --map it
has the label, the distance and the place in the source. interrupt, dispatch high, restore and dispatch low are steps, too.
If nothing happens any more in an image, the last line says why:
  waits            no process can run, and one waits at a link
  idle             no process can run, and none waits at a link
  halted FAULT at ADDRESS   the node has halted at the instruction there
Nobody is at a link without --in: nothing comes in, what is sent is lost and never acknowledged, so a process that sends or waits there stops for good.
What comes in at a link of --in has a line and a number, too: takes, the link and the token, and sends and what leaves in answer.
With --until or --watch it says at the end which stop came, and prints registers, queues, the workspace's first words and the bytes of --watch:
  stop until ADDRESS   the instruction there is the next step
  stop watch           the line above changed one of the bytes
  stop steps           --steps lines were printed before
With I each line begins with the number of an entry, as tpnet journal has it: steps are numbered within their entry, and a token that came in
has a line without a number of its own. FILE may be run meanwhile.
Refusals (status 1); nothing is written to FILE:
  ReadFailed    FILE, the map or a file of --in can't be read: look at its path and its rights
  BadMap L      line L of the map is none of a map (with I BadMap F L, line L of FOLDER/F): make the map anew, by tools/assemble --map
  NoPlace       PLACE is neither an address of eight digits with capital letters nor a label of the map, or that of --watch is below 80000000
  BadImage      without I: FILE is no node's image: make it with tools/make-image
  NotFormatted  with I: FILE is no device, and so each refusal of tpnet recover
  DeviceFailed  standard output can't be written
  Memory        there is no memory left: take an image with fewer pages";

/// What the lines of `tpnet check` mean, and what it refuses.
pub const CHECK_REFUSALS: &str =
    "It says which version of the head format would write, 1 for at most 16 nodes of at most 256 pages each, and else 2, and the form
of its areas; then the least AREA, the one that format takes by default, and AREAs with room for 4096, 65536 and 1048576 entries
between two checkpoints.
Refusals (status 1):
  ReadFailed    TOPOLOGY or an image can't be read: look at its path and its rights
  Syntax L      line L of TOPOLOGY is malformed; at 0 a node or a port is missing
  TwoWires      a link or port has two wires, or a wire leads from a link to itself
  UnknownNode   a wire names what no line above declares
  TooMany       there are more than 64 nodes or 8 ports
  BadImage      an image is none, has other pages than its node, or a link of it is at work
  DeviceFailed  standard output can't be written
  Memory        there is no memory left";

/// What `tpnet format` refuses.
pub const FORMAT_REFUSALS: &str =
    "formatted means that the disk has room for all of DEVICE: each byte of its file is written.
Refusals (status 1); all but DeviceFailed leave a file that is there as it was:
  InUse         another tpnet runs, formats or compacts DEVICE: wait for it (--wait-lock), or end it
  ReadFailed    TOPOLOGY or an image can't be read: look at its path and its rights
  Syntax L      line L of TOPOLOGY is malformed; at 0 a node or a port is missing
  TwoWires      a link or port has two wires, or a wire leads from a link to itself
  UnknownNode   a wire names what no line above declares
  TooMany       there are more than 64 nodes or 8 ports
  DeviceExists  with --new: DEVICE is there already
  DeviceFailed  DEVICE can't be made or written, or standard output can't: look at rights and room; once there is room
                for it what was there is written over, and may be gone: --new or a new path keeps an old device
  BadImage      an image is none, has other pages than its node, or a link of it is at work
  AreaFull      AREA is too small: tpnet check says how large it has to be, and without AREA it is large enough
  Memory        there is no memory left
A DEVICE that is the file of TOPOLOGY or of an image, under whatever name, ends with status 2, and stays as it was.";

/// What a command refuses that opens a device to read it.
pub const OPENING_REFUSALS: &str =
    "DEVICE may be run meanwhile: what is printed is so at one moment of the call.
Refusals (status 1); nothing is written to DEVICE:
  ReadFailed    DEVICE can't be opened or read, or is no regular file: look at its path and its rights
  NotFormatted  DEVICE is none: make one with tpnet format
  BadVersion    DEVICE is of another version of tpnet
  NoOpenArea    neither area is open: format was stopped, or the device was written over
  Damaged AT    what is at offset AT breaks its rule: restore a copy
  Busy          another tpnet writes DEVICE so fast that no moment of it could be read: try again, or stop that one
  DeviceFailed  standard output can't be written
  Memory        there is no memory left";

/// What the words of the line of `tpnet status` mean, and what it refuses.
pub const STATUS_REFUSALS: &str = "The line:
  HH:MM:SSZ       with --every: the time of day in UTC, if the system says it
  running yes     another tpnet runs, formats or compacts DEVICE (no: none does)
  generation G    the checkpoint that counts; one more each time
  form F          turns, or plain: its journal holds no turns, as another program wrote it; the next checkpoint changes that
  next M          the number of the next journal entry
  entries E of R  the journal has E entries since that checkpoint, and room for R: how much of it that is, in percent
  steps N         how many steps all nodes made in these E entries
  port P          and of each port:
  accepted A      how many bytes it has accepted in all
  pending Y       how many of these no node has taken yet
  put_out Z       how many bytes it has put out in all
  unconfirmed N   how many of these aren't confirmed
  halted I F at A node I has halted by the fault F at the address A, each node so; or none has
  +N/s            with --every: how much next, accepted and put_out grew in a second since the check before
DEVICE may be run meanwhile: what is printed is so at one moment of the call.
Refusals (status 1), which end --every; nothing is written to DEVICE:
  ReadFailed    DEVICE can't be opened or read, or is no regular file: look at its path and its rights
  NotFormatted  DEVICE is none: make one with tpnet format
  BadVersion    DEVICE is of another version of tpnet
  NoOpenArea    neither area is open: format was stopped, or the device was written over
  Damaged AT    what is at offset AT breaks its rule: restore a copy
  Busy          another tpnet writes DEVICE so fast that no moment of it could be read: try again, or stop that one
  DeviceFailed  standard output can't be written
  Memory        there is no memory left";

/// What the lines of `tpnet waits` mean, and what it refuses.
pub const WAITS_REFUSALS: &str = "A line of each node I, in their order:
  node I rests    no process of it does anything until a byte or an acknowledge comes
  node I runs     a process of it runs, is ready to, or was interrupted
  node I halted C F at A   it has halted by the fault F, of code C, at the address A
  last M          the last entry of the journal that it made: since then it is as it is (none: it was so at the checkpoint)
After it a line of each of its processes that waits at link K:
  out K sends     bytes of it aren't acknowledged;   in K inputs   bytes of it are still to come;
  in K chooses    it waits in an alternative that has enabled the link
  left L          how many bytes;   process W   its descriptor;   at A   the instruction at which it goes on
  since N         the entry that left it in this wait; since before N: it is older than the entries after the checkpoint
  after L+N (F)   with --map: the instruction before A, in which it waits, by label, distance and place in the source
  to, from        the other end of the link's wire; after the colon, why it still waits:
    under way        a byte or an acknowledge is on the wire: it goes on once the nodes have turns
    both send        both ends of the link send, and neither inputs
    both input       both ends of the link wait for a byte
    waits elsewhere  that node rests, and none of its processes does at this link what would end the wait
    runs             that node, or this one, doesn't rest: it may still end the wait
    halted           that node has halted
    full             the port has 4096 bytes of output that nobody has confirmed
    no input         no byte is pending at the port
    no wire          the link has no wire
At the end, once more, what nobody in the network can end: both send and both input once for each wire, halted, full, no input, no wire;
and cycle: nodes .., for those that wait for one another, directly or through others, where all rest and nothing is on the wires.
Processes that wait at channels in memory aren't named: nothing in a node says which of its words are channels.
DEVICE may be run meanwhile: what is printed is so at one moment of the call.
Refusals (status 1); nothing is written to DEVICE:
  ReadFailed    DEVICE can't be opened or read, or is no regular file, or FOLDER has no map: look at their paths and rights
  BadMap F L    line L of FOLDER/F is none of a map: make the map anew, by tools/assemble --map
  NotFormatted  DEVICE is none: make one with tpnet format
  BadVersion    DEVICE is of another version of tpnet
  NoOpenArea    neither area is open: format was stopped, or the device was written over
  Damaged AT    what is at offset AT breaks its rule: restore a copy
  Busy          another tpnet writes DEVICE so fast that no moment of it could be read: try again, or stop that one
  DeviceFailed  standard output can't be written
  Memory        there is no memory left";

/// What the last lines of `tpnet node` mean, and what it refuses.
pub const NODE_REFUSALS: &str = "At its end is what the node has done in the entries of the journal:
  since B         the checkpoint has the B entries before these
  entries E       the node's entries since then, as tpnet journal DEVICE --node I lists them
  steps N         how many steps it made in them
  bytes K in X out Y   of each link K: X bytes came in, and Y went out, whose acknowledge the node took
DEVICE may be run meanwhile: what is printed is so at one moment of the call.
Refusals (status 1); nothing is written to DEVICE:
  ReadFailed    DEVICE can't be opened or read, or is no regular file, or FOLDER has no map: look at their paths and rights
  BadMap F L    line L of FOLDER/F is none of a map: make the map anew, by tools/assemble --map
  NotFormatted  DEVICE is none: make one with tpnet format
  BadVersion    DEVICE is of another version of tpnet
  NoOpenArea    neither area is open: format was stopped, or the device was written over
  Damaged AT    what is at offset AT breaks its rule: restore a copy
  Busy          another tpnet writes DEVICE so fast that no moment of it could be read: try again, or stop that one
  DeviceFailed  standard output can't be written
  Memory        there is no memory left";

/// What `tpnet compact` refuses.
pub const COMPACT_REFUSALS: &str =
    "Nothing runs, and nothing is lost: all output that isn't confirmed stays.
Refusals (status 1):
  InUse         another tpnet runs, formats or compacts DEVICE: wait for it (--wait-lock), or end it
  ReadFailed    DEVICE can't be opened to read and write, or be read, or is no regular file: look at its path and its rights
  NotFormatted  DEVICE is none: make one with tpnet format
  BadVersion    DEVICE is of another version of tpnet
  NoOpenArea    neither area is open: format was stopped, or the device was written over
  Damaged AT    what is at offset AT breaks its rule: restore a copy
  JournalFull   no generation is left: 2^48 checkpoints were made
  DeviceFailed  DEVICE can't be written or synced, or standard output can't: look at rights and room
  Memory        there is no memory left";

/// What `tpnet backup` refuses.
pub const BACKUP_REFUSALS: &str =
    "DEVICE may be run meanwhile: the copy is of one moment, and has all that was durable when the command began.
It is made as COPY.part, which gets the name COPY once it is whole and synced: that takes a file system with hard links. Then its
folder is synced, and only then copied next M is printed. Nothing that is there is written over or removed.
Refusals (status 1); nothing is written to DEVICE. A copy that was made is removed if the system lets it be, unless only standard output
can't be written:
  CopyExists    COPY is there already, or COPY.part is the file of DEVICE: name another COPY
  PartExists    COPY.part is there already: a backup that was stopped left it; remove it, unless another backup makes it now
  ReadFailed    DEVICE can't be opened or read, or is no regular file: look at its path and its rights
  NotFormatted  DEVICE is none: make one with tpnet format
  BadVersion    DEVICE is of another version of tpnet
  NoOpenArea    neither area is open: format was stopped, or the device was written over
  Damaged AT    what is at offset AT breaks its rule: restore a copy
  Busy          another tpnet writes DEVICE so fast that no moment of it could be copied: try again, or stop that one
  DeviceFailed  COPY can't be made, written, synced or named: look at its folder, at rights and at room; or standard
                output can't be written: then COPY is there, whole and synced
  Memory        there is no memory left";

/// What `tpnet run` refuses.
pub const RUN_REFUSALS: &str =
    "If FILE can't be read, or DEVICE isn't opened, nothing is written to DEVICE.
Refusals (status 1):
  InUse         another tpnet runs, formats or compacts DEVICE: wait for it (--wait-lock), or end it
  ReadFailed    FILE can't be read, or DEVICE can't be opened to read and write, or be read, or is no regular file: look
                at paths and rights
  NotFormatted  DEVICE is none: make one with tpnet format
  BadVersion    DEVICE is of another version of tpnet
  NoOpenArea    neither area is open: format was stopped, or the device was written over
  Damaged AT    what is at offset AT breaks its rule: restore a copy
  JournalFull   DEVICE has no room for all bytes of FILE that its port takes at once (--stream takes them by pieces), or for the
                confirm, whose output was printed (tpnet compact makes room): see --explain
  DeviceFailed  DEVICE can't be written or synced, or standard output can't: look at rights and room
  Memory        there is no memory left
Once DEVICE is open, a --spare above a node's pages and a --port that isn't there end with status 2. Before that, so does standard output that is
the file of DEVICE or of --in, or that goes into one regular file with standard error.";

/// How `tpnet stop` asks, and what it refuses.
pub const STOP_REFUSALS: &str =
    "It makes the empty file DEVICE.stop. A stream checks for it after each flush, except while workers make turns. Then it makes no more turns,
confirms what is shown, removes the file and ends with status 0; its last line is next M stopped. If the file is there already, the stream
was asked before.
Only tpnet run --stream can be asked. While run without --stream, compact or format has DEVICE, nobody removes the file: --wait says whether it ended.
Refusals (status 1); nothing is written to DEVICE:
  ReadFailed    DEVICE can't be opened to read and write, or is no regular file: look at its path and its rights
  NotRunning    no other tpnet has DEVICE, so there is nobody to ask; a DEVICE.stop that was left is removed
  NotFormatted  nobody has DEVICE, and it is none: make one with tpnet format
  BadVersion    nobody has DEVICE, and it is of another version of tpnet
  Damaged AT    nobody has DEVICE, and what is at offset AT of its head breaks its rule: restore a copy
  StopExists    what is at DEVICE.stop is no empty file, so it is somebody's own, and stays: move it
  StillRunning  it was asked, and SECONDS later another tpnet has DEVICE still: wait for it again, or end it otherwise
  DeviceFailed  DEVICE.stop can't be made: look at its folder and your rights there; or standard output can't be written
  Memory        there is no memory left";
