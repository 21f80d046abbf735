//! Generated programs.

use crate::generate;
use std::alloc::Global;
use std::process::Abort;
use std::test::Fail;

const SEED_0: &str = "#include <pthread.h>
#include <assert.h>
pthread_mutex_t m = PTHREAD_MUTEX_INITIALIZER;
unsigned int total;
void *worker1(void *arg) {
  pthread_mutex_lock(&m);
  total = total + 18u;
  pthread_mutex_unlock(&m);
  pthread_mutex_lock(&m);
  total = total + 23u;
  pthread_mutex_unlock(&m);
  pthread_mutex_lock(&m);
  total = total + 28u;
  pthread_mutex_unlock(&m);
  pthread_mutex_lock(&m);
  total = total + 33u;
  pthread_mutex_unlock(&m);
  return NULL;
}
void *worker2(void *arg) {
  pthread_mutex_lock(&m);
  total = total + 31u;
  pthread_mutex_unlock(&m);
  pthread_mutex_lock(&m);
  total = total + 36u;
  pthread_mutex_unlock(&m);
  pthread_mutex_lock(&m);
  total = total + 41u;
  pthread_mutex_unlock(&m);
  pthread_mutex_lock(&m);
  total = total + 46u;
  pthread_mutex_unlock(&m);
  return NULL;
}
int main(void) {
  pthread_t t[2];
  pthread_create(&t[0], NULL, worker1, NULL);
  pthread_create(&t[1], NULL, worker2, NULL);
  pthread_join(t[0], NULL);
  pthread_join(t[1], NULL);
  assert(total == 256u);
  return 0;
}
";

/// A seed, the lines with which its program ends, and the reason of the row.
fn compare_ends(rt: &impl Abort, alloc: Global, rows: &[(u32, &str, &str)]) -> Result<(), Fail> {
    for row in rows {
        let text = generate(alloc, row.0)?;
        assert!(rt;
            text.items().ends_with(row.1.as_bytes()),
            "{} ({})",
            row.0,
            row.2
        );
    }
    Ok(())
}

#[test]
fn seed_0(rt: HostRuntime) -> Result<(), Fail> {
    let text = generate(rt.alloc(), 0)?;
    assert!(rt; text.items() == SEED_0.as_bytes());
    Ok(())
}

#[test]
fn other_seeds(rt: HostRuntime) -> Result<(), Fail> {
    let rows = [
        (
            39,
            "  pthread_join(t[0], NULL);\n  pthread_join(t[1], NULL);\n  assert(total == 241u);\n  return 0;\n}\n",
            "the total is wrong by one",
        ),
        (
            65_535,
            "  pthread_join(t[1], NULL);\n  assert(total == 1111u);\n  return 0;\n}\n",
            "the greatest seed",
        ),
        (
            38,
            "  pthread_join(t[2], NULL);\n  pthread_join(t[3], NULL);\n  assert(total == 3124u);\n  return 0;\n}\n",
            "most workers and blocks",
        ),
    ];
    compare_ends(&rt, rt.alloc(), rows.as_slice())
}
