//! Programs and plans that are held in every case, named for what they show.
use super::Named;

pub const SUM_LOOP: &[u8] = b"int s;
int main() {
  int i = 0;
  #pragma dswp
  while (i < 3) {
    s = s + i;
    print(s);
    i = i + 1;
  }
}
";

const ZERO_DIVISOR: &[u8] = b"int q;
int main() {
  int i = 0;
  #pragma dswp
  while (i < 6) {
    q = 12 / (3 - i);
    i = i + 1;
  }
}
";

/// Stage 2 stores what stage 1 loads two iterations later.
const STALE_READ: &[u8] = b"int a[8]; int s; int main() { int i = 0;
#pragma dswp
while (i < 6) { s = s + a[i]; i = i + 1; a[(i + 1) % 8] = i; } }
";

const SAME_VALUE: &[u8] = b"int a[8]; int s; int main() { int i = 0;
#pragma dswp
while (i < 6) { s = s + a[i]; i = i + 1; a[(i + 1) % 8] = 0; } }
";

const SKIP_NEGATIVE: &[u8] = b"int n; int main() { int i = 0;
#pragma dswp
while (i < input_len) {
  int x = input[i];
  if (x < 0) { i = i + 1; }
  i = i + 1;
  n = n + x;
} }
";

const HISTOGRAM: &[u8] = b"int h[4]; int main() { int i = 0;
#pragma dswp
while (i < input_len) {
  int x = input[i]; i = i + 1;
  int y = (x * 5 + 3) % 4;
  h[y] = h[y] + 1;
} }
";

/// Sites 2 to 11: the inner `while` 6 has 7 and 8 inside, the `if` 9 has 10 inside.
const MIXED_HISTOGRAM: &[u8] = b"int h[4]; int main() { int i = 0;
#pragma dswp
while (i < input_len) {
  int x = input[i]; i = i + 1; int r = 0;
  while (r < 3) { x = (x * 5 + 3) % 16; r = r + 1; }
  if (x < 0) { x = -x; }
  h[x % 4] = h[x % 4] + 1;
} }
";

/// Both stages store one element, and stage 2 does it first in the text.
const TWO_STORES: &[u8] = b"int a[1]; int main() { int i = 0;
#pragma dswp
while (i < 3) { a[0] = i * 10; a[0] = i; i = i + 1; } }
";

/// An inner loop that never ends on a stale step.
const STALE_STEP: &[u8] = b"int step; int t; int main() { int i = 0;
#pragma dswp
while (i < 3) {
  int j = 0;
  while (j < i * 4) { j = j + step; }
  t = t + j; step = 2; i = i + 1;
} }
";

const STALE_DIVISOR: &[u8] = b"int step; int t; int main() { int i = 0;
#pragma dswp
while (i < 3) { if (i > 0) { t = t + 12 / step; } step = 2; i = i + 1; } }
";

/// A stale bound closes the loop too early.
const STALE_BOUND: &[u8] = b"int lim = 1; int n; int main() { int i = 0;
#pragma dswp
while (i < lim) { if (lim < 4) { lim = lim + 1; } n = n + i; i = i + 1; } }
";

const PAST_THE_END: &[u8] = b"int go = 1; int n; int main() {
#pragma dswp
while (go) { if (n == 2) { go = 0; } n = n + 1; } }
";

const EARLY_EXIT: &[u8] = b"int n;
int main() {
  #pragma dswp
  for (int i = 0; i < input_len; i = i + 1) {
    int x = input[i];
    if (x < 0) break;
    n = n + x;
  }
}
";

/// What is loaded lies before what is stored, so no load sees a store of the region.
const FAR_READS: &[u8] = b"int a[9]; int s; int main() { int i = 0; a[3] = 7;
#pragma dswp
while (i < 8) {
  s = s + a[i + 1]; s = s + a[i + 1]; s = s + a[i + 1]; s = s + a[i + 1];
  a[i] = i + 1;
  i = i + 1;
} }
";

/// The element that is stored is loaded in the next iteration.
const NEAR_READS: &[u8] = b"int a[5]; int s; int main() { int i = 0;
#pragma dswp
while (i < 4) { s = s + a[i]; i = i + 1; a[i] = 7; } }
";

/// A table of words with hashing, look-up, insertion and counting.
pub const WORD_TABLE: &[u8] = b"int keys[16];
int counts[16];
int distinct;
int total;

void count(int p, int x) {
  counts[p] = counts[p] + 1;
  total = total + x;
}

int main(void) {
  int i = 0;
  #pragma dswp
  while (i < input_len) {
    int x = input[i];
    i = i + 1;
    /* three rounds of mixing */
    int h = x;
    int r = 0;
    while (r < 3) { h = (h * 5 + 3) % 16; r = r + 1; }
    // look up, 0 marks an empty place
    int p = h;
    while (keys[p] != 0 && keys[p] != x + 1) { p = (p + 1) % 16; }
    if (keys[p] == 0) { keys[p] = x + 1; distinct = distinct + 1; }
    count(p, x);
  }
  print(distinct);
  print(total);
  return 0;
}
";

pub const SKIP_PLAN: &[u8] =
    b"plan 1\nregion 1 words 4096\nseq 2 5 6\nseq 3 4 7\nassume 4 0\nend\n";

pub const STALE_PLAN: &[u8] = b"plan 1\nregion 1 words 4096\nseq 2 3 4\nseq 5\nend\n";

/// What a whole run shows.
pub const SUM_PROFILE: &[u8] =
    b"profile 1\nregion 1\nruns 2 4 3\nruns 3 3 0\nruns 4 3 0\nruns 5 3 0\nflow 3 3 carried 2\nflow 3 4 intra 3\nflow 5 2 carried 3\nflow 5 3 carried 2\nflow 5 5 carried 2\nend\n";

/// What a run on 5, 6, 7 shows: the `if` is never taken.
pub const SKIP_PROFILE: &[u8] =
    b"profile 1\nregion 1\nruns 2 4 3\nruns 3 3 0\nruns 4 3 0\nruns 5 0 0\nruns 6 3 0\nruns 7 3 0\nflow 3 4 intra 3\nflow 3 7 intra 3\nflow 6 2 carried 3\nflow 6 3 carried 2\nflow 6 6 carried 2\nflow 7 7 carried 2\nend\n";

/// Two regions with prints in each stage, and before, between and behind them.
const TWO_REGIONS: &[u8] = b"int i; int n; int main() { print(7);
#pragma dswp
while (i < 2) { print(i); i = i + 1; int t = i * 2; print(t); } print(8);
#pragma dswp
while (n < 2) { int t = n; n = t + 1; n = n; } print(9); }
";

/// Stores of the value that is there, and body locals.
const LOCALS: &[u8] = b"int a[2]; int main() { int k = 0;
#pragma dswp
while (k < 3) { int t = k * 5; a[k % 2] = t; a[0] = a[0]; k = k + 1; print(t); print(-k); } }
";

/// What a whole run commits.
pub const SUM_LOG: &[u8] =
    b"log 1\nregion 1\ncommit 0\nset 1 1\nprint 0\ncommit 1\nset 0 1\nset 1 2\nprint 1\ncommit 2\nset 0 3\nset 1 3\nprint 3\ncommit 3\nclosed 1\nend done\n";

/// Where a run stands before iteration 4.
pub const STALE_CHECKPOINT: &[u8] =
    b"checkpoint 1\nregion 1 after 4 steps 17 fuel 10000000\ncells 0 0 1 2 3 4 0 0 3 4\nreport 1 iterations 4 recovered 1: 2\nend\n";

pub const LIBRARY: &[Named] = &[
    ("sum_loop.c", SUM_LOOP),
    ("zero_divisor.c", ZERO_DIVISOR),
    ("stale_read.c", STALE_READ),
    ("same_value.c", SAME_VALUE),
    ("skip_negative.c", SKIP_NEGATIVE),
    ("histogram.c", HISTOGRAM),
    ("mixed_histogram.c", MIXED_HISTOGRAM),
    ("two_stores.c", TWO_STORES),
    ("stale_step.c", STALE_STEP),
    ("stale_divisor.c", STALE_DIVISOR),
    ("stale_bound.c", STALE_BOUND),
    ("past_the_end.c", PAST_THE_END),
    ("early_exit.c", EARLY_EXIT),
    ("far_reads.c", FAR_READS),
    ("near_reads.c", NEAR_READS),
    ("word_table.c", WORD_TABLE),
    ("skip.in", b"5 -1 7 8"),
    ("other.in", b"-1 5 3"),
    ("bad.in", b"1 x"),
    ("one.in", b"1"),
    ("zeros.in", b"5 0"),
    ("two.list", b"skip.in\nother.in\n"),
    ("sum_loop.log", SUM_LOG),
    ("stale.check", STALE_CHECKPOINT),
    ("two_regions.c", TWO_REGIONS),
    (
        "two_regions.plan",
        b"plan 1\nregion 1 words 4096\nseq 2 3 4\nseq 5 6\nregion 2 words 16\nseq 8 9 10\nseq 11\nend\n",
    ),
    ("locals.c", LOCALS),
    ("plain.c", b"int x; int main() { x = 1; print(x); }"),
    ("exit.in", b"5 -1 7"),
    (
        "exit_in_front.plan",
        b"plan 1\nregion 1 words 4096\nseq 2 3 4 6\nseq 5\nend\n",
    ),
    (
        "exit_behind.plan",
        b"plan 1\nregion 1 words 4096\nseq 2 6\nseq 3 4 5\nend\n",
    ),
    ("skip.plan", SKIP_PLAN),
    ("stale.plan", STALE_PLAN),
    ("sum_loop.prof", SUM_PROFILE),
    ("skip_negative.prof", SKIP_PROFILE),
];
