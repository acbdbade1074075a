//! The texts of the help.

pub(crate) const FROM: &str =
    "The first time, in milliseconds; a negative one is written --from=-10 [default: -2^62]";

pub(crate) const TO: &str = "The last time, in milliseconds [default: 2^62 - 1]";

pub(crate) const QUIET: &str = "Does not tell a terminal which directory is read";

pub(crate) const STATUSES: &str =
    "Exit status: 0 done; 1 refused, with the code on standard error, or by `check` in a line of its
own; 2 a fault of the words; 3 cannot read or write; 4 no memory

Example: querier select 'up{job=\"a\"}' data/0001";

/// What `--version` prints behind the name. No build knows its commit.
pub(crate) const VERSION: &str = "0.1.0 (rattle-kit-13f)";

/// The version, and the version of the kit, as the status port reports them.
pub(crate) const OWN_VERSION: &str = "0.1.0";

pub(crate) const KIT_VERSION: &str = "rattle-kit-13f";

pub(crate) const CHECKS: &str =
    "A block is a directory with the files meta.json, index, chunks/000001 and tombstones. All four
are read before any is judged: the meta, the index, the chunks of each series, the tombstones.

For each directory, in the order given, one line is printed:
  DIR: ok 6 series 6 samples   a block, with so many series and samples that are not deleted
  DIR: refused I14             not a block, and the code of the first check that fails

  B2        meta.json is not that of a block: an object with minTime below maxTime and version 1
  I1 to I15 the index, or a series of more than 1,048,576 samples (I15)
  C1 to C8  the chunks; those that Prometheus itself writes are refused with C5, and
            `blocktool from-prometheus` makes a block of them that is read
  T1 to T5  the tombstones
  B1        a chunk outside the range of the meta

docs/FORMATS.md of the project explains each code.

Exit status: 0 each is a block; 1 a line names a refusal; 2 a fault of the words; 3 a file cannot be
read (it is named on standard error, and the lines of earlier directories are printed), or the lines
cannot be written; 4 no memory

Example: querier check data/0001 data/0002";

pub(crate) const EXAMPLE: &str =
    "A selector is a metric name, matchers in braces, or both. Matchers are name=\"text\",
name!=\"text\", name=~\"pattern\" and name!~\"pattern\"; an absent label counts as the empty text.

The blocks in the directories are searched in the order given, as \"block 0\", \"block 1\" and so
on, and after them an empty head. Their ranges may overlap: of two samples of one series at one
time, that of the later block stands. Each directory is verified completely, as by `querier check`,
before anything is printed.

Refusals, the first that holds:
  M4 at N  no selector; N is the length in bytes of its longest prefix that begins one
  M6       no matcher
  M5       more than 16 matchers
  M3       a pattern of more than 256 bytes
  M2       a pattern that is refused by the library of patterns
  Q1       a range that ends before it begins, or an end of it that is no time
  B2, I1 to I15, C1 to C8, T1 to T5, B1
           the first directory at fault holds no block; `querier check --help` tells the codes
  O3       more than 63 directories

Exit status: 0 done; 1 refused, with the code on standard error; 2 a fault of the words; 3 a file
cannot be read (it is named on standard error), or the answer cannot be written; 4 no memory

Example: querier select --from=-10 --to=100 'up{job=\"a\",zone=~\"x|\"}' data/0001 data/0002";

pub(crate) const PORT: &str = "The port of 127.0.0.1, 0 to 65535; 0 takes one that is free";

pub(crate) const WORKERS: &str = "How many workers serve, each a thread, 1 to 64 [default: 4]";

pub(crate) const REQUESTS: &str = "After how many connections a worker ends [default: never]";

pub(crate) const IDLE: &str =
    "For how many seconds a client may be silent; 0 for ever [default: 30]";

pub(crate) const REPLY_MEMORY: &str =
    "How many MB the replies under way may take together, 1 to 1048576 [default: any number]";

pub(crate) const PROMETHEUS_PORT: &str =
    "A port of 127.0.0.1 for the remote write and read of a Prometheus; 0 for none [default: none]";

pub(crate) const PROMETHEUS_WORKERS: &str =
    "How many workers serve that port, each a thread, 1 to 64 [default: 4]";

pub(crate) const STATUS_PORT: &str =
    "A port of 127.0.0.1 with GET /metrics, /healthy and /ready, 1 to 65535 [default: none]";

pub(crate) const CUT_EVERY: &str =
    "Cuts by itself at multiples of so many milliseconds, 1 to 2^62 - 1 [default: never]";

pub(crate) const CUT_AFTER: &str =
    "Cuts so many milliseconds behind the newest sample and the clock [default: half of the other]";

pub(crate) const READ_ONLY: &str = "Has no POST: what is served does not change";

pub(crate) const GUARD: &str =
    "The file with a token that each POST has to bear, readable by its owner alone";

pub(crate) const DATA: &str =
    "A folder that keeps each change; it is made if there is none [default: none]";

pub(crate) const JOURNAL_MB: &str =
    "After how many MB the journal of --data is begun anew, 1 to 1048576 [default: 8]";

pub(crate) const KEEP: &str =
    "How long samples are kept: 90d, 36h, 30m, 45s or milliseconds [default: for ever]";

pub(crate) const KEEP_GB: &str =
    "With how many GB of blocks the oldest samples leave, 1 to 1048576 [default: never]";

pub(crate) const JOIN_SAMPLES: &str =
    "How many samples a joined block may have, 1 to 67108864 [default: 33554432]";

pub(crate) const PATH: &str = "A journal, or the folder of --data that it stands in";

pub(crate) const JOURNALS: &str =
    r#"A journal is what `querier serve --data DIR` keeps in DIR/journal: one record for each change
that was accepted. Nothing is changed, and a server may have the folder locked meanwhile.

A journal begins with a head, what the store had when the journal was begun; for it a line stands
first, with the floor in milliseconds (one of before has none):
  head: floor 20, 1 blocks, 2 series, 40 samples
For each change since, in their order, one line is printed, with its number from 1:
  1 batch 120 samples of 3 series, 10 to 20
  2 deletion {job="a"} 0 to 10
  3 cut at 20
and then a line with how many they are, how many bytes they take, and how many bytes of a torn
record stand behind them, which the next start cuts off:
  3 events, 4711 bytes, 0 bytes of a torn record

Refusals, the first that holds, with its place; nothing is printed then:
  J1 at 0, J2 at 4   no journal, or of another version
  J3, J4 at BYTE     damage before the last record: a checksum or a length that is wrong
  J8 to J14 at N     the content behind N others is none of a head, or behind N changes no change
  J19, J20 at N      the change behind N others has a number of no series, or a second one of one

docs/FORMATS.md of the project explains each code.

Exit status: 0 done; 1 refused, with the code on standard error; 2 a fault of the words; 3 a file
cannot be read (it is named on standard error), or the lines cannot be written; 4 no memory

Example: querier journal data"#;

pub(crate) const SOURCE: &str = "The folder of --data of a server";

pub(crate) const COPY: &str = "The folder of the copy, which must not be there, or be empty";

pub(crate) const BACKUPS: &str =
    r#"Copies the store that `querier serve --data DIR` keeps, as it is at some moment of the call. The
server may run and change it meanwhile: nothing in DIR is changed or locked.

The copy is a store by itself: `querier serve --data OUT` serves it. OUT is made if there is none,
and OUT/lock is locked meanwhile. The blocks are written first, to OUT/blocks, and last OUT/journal,
with a head that has the rest, and no event. A copy that was cut off has no journal, so it is no
store: remove it.

One line is printed, with the number of its blocks, and of the changes that stood in DIR/journal,
which the copy has:
  OUT: 2 blocks, 37 events

It takes memory for the whole store, as a start of the server does.

Refusals:
  O6                 OUT is not empty
  O7                 the server began its journal anew each of five times while it was read
  J1 to J4, J8 to J14, J15 to J20
                     the store is refused, as by `querier serve`

Exit status: 0 done; 1 refused, with the code on standard error; 2 a fault of the words; 3 a file
cannot be read or written, another process has OUT locked, or the line cannot be written; 4 no
memory

Example: querier backup data /backup/today"#;

pub(crate) const SERVES: &str =
    r#"The directories are opened and verified as by `querier select`, and over them stands an empty
head, in memory alone: what is written to it ends with the program. Then `listening P` is printed, P
being the real port.

With --data, the store begins empty, and each write, deletion and cut is in DIR/journal, synced,
before its reply goes out. A start replays them over the blocks in DIR/blocks: standard error tells
`recovered N blocks, N events`, and how many bytes of a torn record it cut off; or `began
DIR/journal`. If one of these is a cut, or there are some and the journal is longer than
--journal-mb, the start then writes the blocks to DIR/blocks and begins the journal anew, and tells
`rolled DIR/journal`. The server does so as well when the journal has grown by more than
--journal-mb, or after a cut by an eighth of it, and tells `rolled the journal`.
Directories beside --data are a fault of the words. If the server cannot make sure that a change is
kept, it is refused with H11 (503): no reader of this run sees it, but if the journal closed, the
next start may find it. What is damaged is refused and left as it is: with J1 to J4, J8 to J14, J19
or J20 (`querier journal --help` tells these), J15 at N if a file of DIR/blocks/N is missing, J16 at
N if they are no block, J17 if no store has what the journal begins with, or J18 at N if the change
behind N others is one that those do not admit. DIR/lock is locked as long as the server runs.

  GET /select?selector=up%7Bjob%3D%22a%22%7D&from=0&to=100
                 the audited answer, as `querier select` prints it
  POST /write    rows, as [{"labels":{"__name__":"up","job":"a"},"samples":[[10,1],[20,1]]}]
  POST /delete   as {"from":0,"selector":"{job=\"a\"}","to":1000}
  POST /cut      as {"at":20}: what is before that time becomes a block

A connection is served one request, and closed. A worker takes one connection after another; a
client that gives no byte, or takes none, for the idle seconds is dropped. docs/HTTP.md of the
project tells each reply and refusal.

With --reply-memory MB, the answers under way to GET /select take no more than so many MB together,
by an estimate: one that is longer is refused with H13 (503) at once, and one that finds no room
waits for it, for the idle seconds, and is refused then. What the store itself has, and the replies
of the port of Prometheus, come on top.

A browser on this machine sends what any page tells it to, and each local user reaches the port.
With --guard, a POST needs the field `Authorization: Bearer TOKEN`, with the token that is all of
the file, save an end of a line; and each request that has an `Origin`, or whose only `Host` is not
127.0.0.1, localhost or [::1], is refused with H12. With --read-only, a POST is of no path (H3).

With --prometheus-port, another listener takes what a Prometheus sends and asks, in workers of its
own (--prometheus-workers), one request a connection; values are doubles there, bit for bit:
  POST /api/v1/write   remote write: what can be kept is kept, 400 tells what was left out
  POST /api/v1/read    remote read: samples, of one snapshot for all queries of a request
  GET or POST /api/v1/labels, GET /api/v1/label/NAME/values, GET or POST /api/v1/series
  GET /api/v1/status/buildinfo
  GET /                a form for a browser; GET /page draws the answer, certified, not judged
A client that is slow there holds no worker. --guard asks the token of writes there, too. A store
that begins in the folder of --data with this port has doubles ever after; one that has whole
numbers is left as it is, and the port is refused (O5).

With --status-port, a second listener answers GET /metrics in the text format of Prometheus, GET
/healthy, and GET /ready, which is 503 until the blocks are open.

With --cut-every MS, the server cuts by itself, as by POST /cut, at multiples of MS milliseconds: at
the last one that lies --cut-after milliseconds, or more, before the newest sample and the clock
(half of MS by default). So samples may be as late as that. If a cut is refused, standard error says
`cannot cut at T: CODE`, and a later one is tried; after E4 first one at half its distance from the
floor.

With --data and --cut-every, the server also joins the blocks of its cuts into fewer, and tells
`joined N blocks into N`; so there is room for more cuts. A join takes some 70 bytes of memory for
each sample, of which a joined block has at most --join-samples. With --keep D, samples leave once
the block that they are in has ended for D, by the floor and by the clock: it tells `dropped samples
before T: N blocks`. With --keep-gb GB, the oldest leave as soon as the blocks have more bytes, of
which 16 are reckoned for each sample and series. Series stay known. Both need --data and
--cut-every.

A status port, and cuts, each take the room of one worker of 64, and so does each worker of the
port of Prometheus: more are refused (O2).

Exit status: 0 each worker has ended; 1 the directories are refused, as by `select`, or the journal
is, or the port of Prometheus; 2 a fault of the words; 3 a file cannot be read or written, another
process has the folder locked, a port cannot be listened on, the line cannot be written, a thread
cannot be made, or the listener is gone; 4 no memory

Example: querier serve --port 8080 data/0001 data/0002"#;
