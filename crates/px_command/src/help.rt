//! What each text of help says behind its words.

/// What help says behind the commands.
pub(crate) const COMMANDS: &[u8] = b"
Examples:
  htx_proxy check site.cfg            says what the configuration in site.cfg has, or which line of it is refused
  htx_proxy replay site.cfg site.rec  writes what becomes of the session that is recorded in site.rec
  htx_proxy explain site.cfg site.rec says which rules are reached in it, what each does, and the status that its client is sent
  htx_proxy weave site.cfg site.rec 2 writes the same of each connection of site.rec, over two shared cores
  htx_proxy serve site.cfg 100        serves 100 connections, one after another
  htx_proxy run site.cfg              serves many connections at once, and goes on
  htx_proxy check --help              says more of one command

Names of files are not empty and do not begin with a dash. Numbers have 1 to 10 digits. What a command writes goes to
standard output; why a bind or a connect failed goes to standard error.

Status:
  0  the command did what it was asked to
  1  the words are no command
  2  the configuration is refused: `config: line L: KIND`; of `check --all` each refused line
  3  the record is refused: `record: byte P: KIND`
  4  a file could not be read: `file: NAME`
  5  the output could not be written
  6  a bind or an accept failed: `net`
  7  there is no memory left";

/// What the help of `check` says behind its words.
pub(crate) const CHECK: &[u8] = b"
Examples:
  htx_proxy check site.cfg           writes `config ok: request rules 1, response rules 0, filters 0`
  htx_proxy check --all site.cfg     writes each refused line of site.cfg, or what check writes where none is
  htx_proxy check --print site.cfg   writes the canonical text of site.cfg
  htx_proxy check --record site.rec  writes the record that site.rec holds, in its second format

Behind --all a refused line is told by `FILE:LINE: KIND: TEXT`, and a second line says what is wrong and what stands there
instead. A refused line is taken as blank. Line 0 is the file as a whole, has no TEXT, and comes last. 100 lines are
written, and how many more there are.

The canonical text of --print is a configuration that says the same: each setting with its value, the tests of `acl` lines
under the names `c1`, `c2` .., and the rules of each list together. Comments, the names of `acl` lines and the order of
settings are not kept. Where it would be longer than a configuration may be, line 0 is refused as Limit.

Refused in this order: the words (1), the file of the configuration (4), the configuration (2), the output (5); with
--record the words (1), the file of the record (4), the record (3), the output (5).

A record that is refused is told by `record: byte P: KIND`. Byte P is the first one of the refused line, counted from 0.
KIND tells what must stand there:
  Header  `PXREC 1` or `PXREC 2`, as the first line
  Count   in `PXREC 2`: `connections COUNT`, as the second line, from 1 on, and then so many clients
  Length  `client LEN END`, `server LEN END TAKES` or `server refused`, where END is `closed` or `broke` and TAKES is `all`
          or a number; behind a LEN so many bytes and a line feed
  Turn    `turns COUNT`, and then so many lines `c N`, `C N`, `s N` or `S N`, with N from 1 to 262144; in `PXREC 2` the
          number of the connection and a blank stand in front
  Rest    `end`, as the last line, and nothing behind it
  Limit   no more than 1024 connections, 65536 servers, 1000000 turns and 67108864 bytes
Lines end with a line feed, and numbers have no zeros in front.";

/// What the help of `replay` says behind its words.
pub(crate) const REPLAY: &[u8] = b"
Example:
  htx_proxy replay site.cfg site.rec  writes a report that begins with `PXREP 1`

Refused in this order: the words (1), the file of the configuration (4), the configuration (2), the file of the record (4),
the record (3), the output (5).";

/// What the help of `explain` says behind its words.
pub(crate) const EXPLAIN: &[u8] = b"
Examples:
  htx_proxy explain site.cfg site.rec           writes lines as `request rule 1 done`, and at last one as `answer 200`
  htx_proxy explain --blocks site.cfg site.rec  writes the blocks of the message too, behind the line of each rule that ran

It is of the first exchange of the record's first connection. Each rule that is reached has a line, with its list, its number
there from 1, and what it came to. The list `request` is of the request, `response` of the server's final head, and `after`
of all that the client is sent.
  passed     its condition does not hold
  done       it did what it says
  skipped    it failed, and strict mode is off
  stop       it ends its list
  reply      it answers in the server's place
  deny CODE  it refuses with this status
  fail       it failed, and the client is refused with 500
The last line is the status that the client is sent: `answer CODE`, or `answer none` where nothing is asked. The request is
taken as one that comes whole, and a server that is not in the record as one that refuses.

With --blocks a rule that ran has more lines behind its own: of the array in which the message stands, as the rule left it.
  room SIZE load L free F                     the array has SIZE bytes; the blocks weigh L, and F more may come
  block I KIND at A name N value V TEXT       block I, counted from 0; N bytes of name and V behind them stand from byte A on
  wanted W                                    the rule found no room: the blocks that it would have left weigh W
Each block weighs 8 bytes more than it has. TEXT is the first 64 bytes, without the three lengths of 4 bytes in front of a
start line; a byte that is neither a blank nor from `!` to `~` is `\\xNN`.

Refused in this order: the words (1), the file of the configuration (4), the configuration (2), the file of the record (4),
the record (3), the output (5).";

/// What the help of `weave` says behind its words.
pub(crate) const WEAVE: &[u8] = b"
Example:
  htx_proxy weave site.cfg site.rec 2  writes a report that begins with `PXREP 2`

All connections of the record are there at once. A connection has a core from its first move to its end; while all K are
out, a turn of a connection without one moves nothing. The turns come in the record's order, whichever connection each is
for. Behind them each connection from the first on makes one move, again and again until all have ended. Each comes to
what `replay` makes of it alone, with those of its turns that found a core.

Refused in this order: the words (1), the file of the configuration (4), the configuration (2), the file of the record (4),
the record (3), the output (5).";

/// What the help of `serve` says behind its words.
pub(crate) const SERVE: &[u8] = b"
Example:
  htx_proxy serve site.cfg 100  serves 100 connections, one after another, and writes a line for each once it is over

Refused in this order: the words (1), the file of the configuration (4), the configuration (2); then a bind or an accept that
fails (6), and the output (5).";

/// What the help of `run` says behind its words.
pub(crate) const RUN: &[u8] = b"
Example:
  htx_proxy run site.cfg                     writes `listening 127.0.0.1:8080`, serves many connections at once, and goes on
  htx_proxy run site.cfg --until-input-ends  the same, and ends once its standard input has ended and all are served
  htx_proxy run site.cfg --workers 4         serves by four processes, and writes the lines of all
  htx_proxy run site.cfg --log               writes a line for each exchange too, once all that its client is sent stands ready

Options come in any order, each at most once. A connection has one of the K sets from the first bytes of a request on until shortly
behind its answer; where a rule sets or unsets a variable of the session it keeps it. Where all are out the next one waits, or of
those that keep theirs the one ends whose next request is awaited longest. At most four times K are open at once: where all are, the
one ends whose next request is awaited longest, and further ones wait. `timeout` lines of the configuration take effect.

With --log the line of an exchange says of which connection it is, and which of its exchanges, who asked, the method and the
target as they were received, the status and the bytes that the client was sent, and the milliseconds since the request's head
was read, as in
  connection 3 exchange 1: 127.0.0.1:50312 GET /index.html status 200 bytes 1234 ms 5
with `-` in place of what there is none of.

With --workers W this process listens, starts W of itself that serve, each with K sets, and passes on what they write. One that
ends is said on standard error, and started again, at most once a second. When this process ends, as by SIGTERM, they accept nothing more,
serve what they have, and end. It stands neither with --until-input-ends, since the input of each is what all of them listen at,
nor with --connections, since none of them counts for the others.

Refused in this order: the words (1), the file of the configuration (4), the configuration (2); then a bind that fails (6).";

/// What the help of `drill` says behind its words.
pub(crate) const DRILL: &[u8] = b"
Example:
  htx_proxy drill 1 1  writes `exchanges 1`, `server bytes 1258`, `client bytes 14709` and `end done`

Refused in this order: the words (1), the output (5).";
