//! What `dollar --help` and the help of each command say. Every command that is shown there with a `$` before it is run
//! by `tests/pages`, on the table and the files that are shown, and its answer compared with what stands below it.

/// The program's version, and the logic of the toolchain that it is proved with, which `tools/completion/check` compares with
/// that of the one at hand. Kits of the toolchain that differ by a letter have the same logic.
pub(crate) const VERSION: &str = "2.0.0\nproved with Rattle, logic dac8208d650f15bf";

pub(crate) const FILE_HELP: &str = "The table: a JSON file; `dollar --help` shows one";

pub(crate) const STEPS_HELP: &str =
    "A text file with a step on each line: a seat, 1 to 64, and a command";

pub(crate) const DEGREE_HELP: &str =
    "How many dollars are lost: a whole number; at most 1000 can be tested";

pub(crate) const NO_HELP: &str = "error: unrecognized subcommand 'help'

  tip: write 'dollar --help', or 'dollar judge --help' for one command

Usage: dollar <COMMAND>

For more information, try '--help'.
";

pub(crate) const TURNS_HELP: &str = "How many turns there may be: a whole number from 0 to 65536";

pub(crate) const SCRIPT_HELP: &str = "Text files with the lines of a session each, up to 64 files";

pub(crate) const WORKERS_HELP: &str = "Threads for a rank test, 1 to 16; default 1";

pub(crate) const RANK_WORKERS_HELP: &str = "Threads that share trials or lines, 1 to 16; default 1";

pub(crate) const LINE_WORKERS_HELP: &str = "Threads for --lines or --divisors, 1 to 16; default 1";

pub(crate) const SEATS_HELP: &str = "N seats play, 1 to 64; each line begins with a seat number";

pub(crate) const LINES_HELP: &str = "FILE has a table on each line, and each is answered";

pub(crate) const DIVISORS_HELP: &str = "Each line of LINES has amounts for the table of FILE";

pub(crate) const ORDER_HELP: &str = "Verdicts end with the order in which vertices burn";

pub(crate) const NUMBERS_HELP: &str = "Answers to lines are columns of bare numbers";

pub(crate) const CAPACITY_HELP: &str = "How many entries there may be, 1 to 65536; default 65536";

pub(crate) const MORE: &str =
    r#"The vertices of a graph hold dollars or owe them. A vertex that lends gives a
dollar along each of its edges, and one that borrows takes a dollar along each.
A table, which is a graph with the dollars at its vertices, is winnable if this
can clear all debts. This is the table triangle.json:

    {
      "vertices": ["a", "b", "c"],
      "edges": [["a", "b", 1], ["b", "c", 1], ["a", "c", 1]],
      "amounts": [2, -1, -1],
      "q": "a"
    }

An edge is two names and the number of edges between them. The amounts are in
the order of the vertices, and a negative one is a debt. Verdicts are computed
from the vertex q, which may be any. A table has 1 to 16 vertices, with names of
1 to 16 letters, digits or `_`; a connected graph, with at most 63 edges at each
vertex; and whole amounts from -1000000 to 1000000.

    $ dollar judge triangle.json
    winnable by a=0 b=-1 c=-1 to a=0 b=0 c=0

The debts are cleared if b and c borrow once each. The help of each command,
such as `dollar judge --help`, explains its answers and its limits.

/dev/stdin may stand for a file; `-` may not. Faults count vertices and edges
from 0, lines and steps from 1: `edge 0 is empty` is about the first edge, and
`line 1: bad seat` about the first line.

A run that fails says why on standard error, and prints nothing. But `serve`,
`--lines` and `--divisors` have answered the lines before, and `party` prints
the history even if a session ended early. If a line of these is refused,
`refused ..` or `bad ..` is its answer, and the run goes on.

The status is

    0  if there is an answer, also `unwinnable` and `rank below ..`
    2  if the command line is refused
    3  if a table or a steps file is refused, or a limit is passed
    4  if the system refuses memory or a thread
    5  if a file can't be read or the output can't be written
"#;

pub(crate) const JUDGE_MORE: &str = "\
The verdict comes with a proof that you can check:

    $ dollar judge --order triangle.json
    winnable by a=0 b=-1 c=-1 to a=0 b=0 c=0 burning a b c

After `by` stands how often each vertex lends, or borrows if the number is
negative; q does neither. After `to` stand the dollars that this leads to. Then
only q may be in debt, and no vertices other than q could lend together without
one of them falling into debt. What shows that is printed with --order: set a
fire to q, and let a vertex burn as soon as it has more edges to burnt vertices
than dollars, and all burn, here in this order. So the table is winnable if and
only if q is not in debt. Otherwise the answer is `unwinnable by .. to ..`.

With --lines, FILE has a table on each line. With --divisors, each line of LINES
has amounts for the table of FILE, with one space between two. They are read as
they come; one that is refused has the fault that a table file would have:

    $ cat amounts.txt
    4 -1 -1
    1 -1
    $ dollar judge triangle.json --divisors amounts.txt
    winnable by a=0 b=-1 c=-1 to a=2 b=0 c=0
    refused number of amounts

With --numbers, an answer is 1 or 0 for winnable or not, the script, and the
dollars after it. A refused line is NA in each column, and then says why:

    $ dollar judge triangle.json --divisors amounts.txt --numbers
    1 0 -1 -1 2 0 0
    NA NA NA NA NA NA NA # refused number of amounts
";

pub(crate) const RANK_MORE: &str = "\
A trial takes K dollars from the vertices, in one of the ways to do so. They are
tried in lexicographic order, here for two dollars and three vertices:

    0 0 2, 0 1 1, 0 2 0, 1 0 1, 1 1 0, 2 0 0

If each leaves a table that is winnable, the rank is at least K; otherwise the
first trial that does not is shown. The status is 0 for both answers.

    $ dollar rank triangle.json 0
    rank at least 0

    $ dollar rank triangle.json 1
    rank below 1 at a=0 b=0 c=1

K may be at most 1000, and there may be at most 200000 trials; a test past that
is refused with `too many trials`. The workers change no answer.

Tables on lines and amounts on lines are read as `dollar judge --help` explains.
There a test past the limits is answered too, without the first loss, as in
`rank below 12 at ?`, though on graphs of many edges it may take long. To ask so
about one table, make a line of it:

    jq -c . FILE | dollar rank --lines /dev/stdin K

With --numbers, an answer is 1 or 0 for the rank being at least K or not, and
the first loss, with NA at each vertex if none is named:

    $ cat amounts.txt
    2 -1 -1
    4 -1 -1
    $ dollar rank triangle.json 1 --divisors amounts.txt --numbers
    0 0 0 1
    1 NA NA NA
";

pub(crate) const RIEMANN_ROCH_MORE: &str = "\
For the triangle:

    $ dollar rr triangle.json
    degree 0
    genus 1
    rank 0
    dual 0

    degree  the sum of the dollars
    genus   edges minus vertices, plus 1
    rank    the most dollars that can be taken, wherever they are taken, without
            making the table unwinnable; -1 if it can't be won
    dual    the rank of another table: each vertex holds two dollars less than
            it has edges, minus its dollars here

By Riemann-Roch, rank - dual = degree + 1 - genus.

Both ranks must be within the limits of `dollar rank`. With 16 vertices each may
be at most 6. Otherwise the fault is `too many trials`; with --lines every table
has an answer, but on graphs of many edges some ranks take long:

    jq -c . FILE | dollar rr --lines /dev/stdin

Tables on lines and amounts on lines are read as `dollar judge --help` explains.
With --numbers, an answer has the four numbers alone:

    $ cat amounts.txt
    2 -1 -1
    4 -1 -1
    $ dollar rr triangle.json --divisors amounts.txt
    degree 0 genus 1 rank 0 dual 0
    degree 2 genus 1 rank 1 dual -1
    $ dollar rr triangle.json --divisors amounts.txt --numbers
    0 1 0 0
    2 1 1 -1
";

pub(crate) const GREEDY_MORE: &str = "\
At each turn the first vertex in debt, in the order of the file, borrows. If
nobody is in debt, the turn is a claim, which is won and ends the game. A line
for each turn has its number, from 0, and its result. A game that has used up
its turns ends with `turns`.

    $ dollar greedy triangle.json 10
    0 moved a=1 b=1 c=-2
    1 moved a=0 b=0 c=0
    2 won

    $ dollar greedy triangle.json 1
    0 moved a=1 b=1 c=-2
    turns

This wins every winnable table, if there are turns enough and no amount leaves
its range on the way. `dollar judge` says whether a table is winnable.
";

pub(crate) const REHEARSE_MORE: &str = "\
STEPS has up to 65536 lines, each with a seat and one of these commands:

    lend V              V lends
    borrow V            V borrows
    fire V,V,..         the vertices named lend at once
    script V=x,V=x,..   each vertex named lends x times, at once
    gift V x            V is given x dollars; a levy if x is negative
    join V V            one more edge joins the two vertices
    claim               the seat claims that nobody is in debt
    look                the seat looks at the amounts, and keeps the look
    commit              the verdict on the look that it keeps is entered
    rank k              the rank test of degree k on that look is entered

There is exactly one space between two words, and none at the end. Empty lines,
comments, tabs and carriage returns are refused, as in `line 1: bad seat`.

    $ cat steps.txt
    1 look
    2 lend a
    1 commit
    1 look
    2 gift b 1
    1 rank 1
    $ dollar rehearse triangle.json steps.txt
    0 looked 0 a=2 b=-1 c=-1
    1 moved a=0 b=0 c=0
    2 winnable by a=0 b=0 c=0 to a=0 b=0 c=0
    3 looked 0 a=0 b=0 c=0
    4 given 1 a=0 b=1 c=0
    5 stale 1

Each step has a line with its number, from 0, and its result. A levy takes
dollars from V. A join changes no amount, but from then on dollars go along the
new edge too. Both count as gifts. A commit or a rank test uses up the look of
its seat. The answer is for the amounts at that moment: moves since the look do
no harm, but a gift, a levy or a join makes it stale. If something is refused,
only a fault is printed: of the first refused line, or else the first refused
step.
";

pub(crate) const SERVE_MORE: &str = "\
A line of the input is a command, such as `lend a`: `dollar rehearse --help` has
them all. Each line is answered before the program waits for the next.

    $ cat lines.txt
    look
    lend a
    commit
    commit
    lend z
    $ dollar serve triangle.json < lines.txt
    0 looked 0 a=2 b=-1 c=-1
    1 moved a=0 b=0 c=0
    2 winnable by a=0 b=0 c=0 to a=0 b=0 c=0
    bad look
    bad name

The answer to an entry of the history is its number, from 0, and its result. The
answer to any other line says what is wrong: `bad word`, `bad form`, `bad name`,
`bad number`; `bad look` if a commit or a rank test finds no unused look;
`bad trials` if a rank test is past the limits of `dollar rank`. After that the
session goes on.

With `--seats N`, each line is a seat from 1 to N, one space and a command. Each
seat keeps a look of its own, and all make one history. The answer to a line for
any other seat is `bad seat`.

    $ cat two.txt
    1 look
    2 commit
    3 look
    $ dollar serve triangle.json --seats 2 < two.txt
    0 looked 0 a=2 b=-1 c=-1
    bad look
    bad seat

A line has at most 1024 bytes, and a session at most 1000000 lines. Nothing is
kept after the run.
";

pub(crate) const PARTY_MORE: &str = "\
A script has the lines of a session, as `dollar serve --help` shows them. Seat 1
plays the first, seat 2 the second, and so on, at the same time and in no fixed
order. Then the history is printed, each entry with its number, its seat and its
result, and the totals, in which levies and joins count as gifts:

    $ cat lend.txt
    lend a
    $ dollar party triangle.json lend.txt
    0 1 moved a=0 b=0 c=0
    entries 1
    gifts 0
    position a=0 b=0 c=0
    seat 1 calls 1

A session that ends before its script has a line on standard error, such as
`dollar: seat 2: the history is full`. Its entries stay.
";
