//! The program of a seed: workers that add to a total under a lock, and `main`, which creates and joins them and then
//! asserts the total.

ghost use Rattle.std.specs.Prelude.{◌≡◌, ◌≤◌, ◌<◌, ◌++◌, IfOk, OnOk};
ghost use Rattle.std.specs.List.{flat_map};
ghost use Rattle.std.specs.Fmt.{decimal};
ghost use Rattle.lz_generate.specs.Generated.{workers_of, blocks_of, addend, total_of, one_to, worker_sum, block_text, worker_head, worker_text, create_text, join_text, main_head, main_end, main_text, generated_text};

use lz_base::{Bytes, Memory};
use std::alloc::Global;

/// The number of workers of a seed's program, from 2 to 4.
pub fn workers(seed: u32) -> u32
    ensures { result ≡ workers_of seed }
{
    2 + seed % 3
}

/// How often each worker of a seed's program adds, from 4 to 16.
pub fn blocks(seed: u32) -> u32
    ensures { result ≡ blocks_of seed }
{
    4 + (seed / 3) % 13
}

/// What a worker adds in a block; both are counted from 1.
fn added(seed: u32, worker: u32, block: u32) -> u32
    ensures value { result ≡ addend seed worker block }
    ensures small { result < 100 }
{
    let sum = 7 * u64::from(seed) + 13 * u64::from(worker) + 5 * u64::from(block);
    (sum % 100) as u32
}

/// What a worker adds in all its blocks.
fn added_in_all(seed: u32, worker: u32) -> u32
    ensures value { result ≡ worker_sum seed worker }
    ensures small { result ≤ 1600 }
{
    let mut total = 0;
    for block in 0..blocks(seed) {
        total += added(seed, worker, block + 1);
    }
    total
}

/// The total that the program asserts.
fn asserted(seed: u32) -> u32
    ensures { result ≡ total_of seed }
{
    let mut total = 0;
    for worker in 0..workers(seed) {
        total += added_in_all(seed, worker + 1);
    }
    total + (seed / 39) % 2
}

/// Adds a number between two texts.
fn append_between(text: &mut Bytes, before: &[u8], number: u32, after: &[u8]) -> Result<(), Memory>
    ensures { OnOk result (text.new ≡ text.old ++ (before.now ++ decimal number ++ after.now)) }
{
    text.append(before)?;
    text.append_number(u64::from(number))?;
    text.append(after)
}

/// Adds the lines in which a worker adds this number.
fn append_block(text: &mut Bytes, number: u32) -> Result<(), Memory>
    ensures { OnOk result (text.new ≡ text.old ++ block_text number) }
{
    append_between(
        text,
        b"  pthread_mutex_lock(&m);\n  total = total + ",
        number,
        b"u;\n  pthread_mutex_unlock(&m);\n",
    )
}

/// Adds the lines of a worker's blocks.
fn append_blocks(text: &mut Bytes, seed: u32, worker: u32) -> Result<(), Memory>
    ensures { OnOk result (text.new ≡ text.old ++ flat_map (λ block. block_text (addend seed worker block)) (one_to (blocks_of seed))) }
{
    for block in 0..blocks(seed) {
        append_block(text, added(seed, worker, block + 1))?;
    }
    Ok(())
}

/// Adds the line in which a worker begins.
fn append_worker_head(text: &mut Bytes, worker: u32) -> Result<(), Memory>
    ensures { OnOk result (text.new ≡ text.old ++ worker_head worker) }
{
    append_between(text, b"void *worker", worker, b"(void *arg) {\n")
}

/// Adds a worker.
fn append_worker(text: &mut Bytes, seed: u32, worker: u32) -> Result<(), Memory>
    ensures { OnOk result (text.new ≡ text.old ++ worker_text seed worker) }
{
    append_worker_head(text, worker)?;
    append_blocks(text, seed, worker)?;
    text.append(b"  return NULL;\n}\n")
}

/// Adds the workers.
fn append_workers(text: &mut Bytes, seed: u32) -> Result<(), Memory>
    ensures { OnOk result (text.new ≡ text.old ++ flat_map (worker_text seed) (one_to (workers_of seed))) }
{
    for worker in 0..workers(seed) {
        append_worker(text, seed, worker + 1)?;
    }
    Ok(())
}

/// Adds the line that creates a worker's thread.
fn append_create(text: &mut Bytes, worker: u32) -> Result<(), Memory>
    requires { 1 ≤ worker }
    ensures { OnOk result (text.new ≡ text.old ++ create_text worker) }
{
    append_between(
        text,
        b"  pthread_create(&t[",
        worker - 1,
        b"], NULL, worker",
    )?;
    append_between(text, b"", worker, b", NULL);\n")
}

/// Adds the lines that create the workers' threads.
fn append_creates(text: &mut Bytes, seed: u32) -> Result<(), Memory>
    ensures { OnOk result (text.new ≡ text.old ++ flat_map create_text (one_to (workers_of seed))) }
{
    for worker in 0..workers(seed) {
        append_create(text, worker + 1)?;
    }
    Ok(())
}

/// Adds the line that joins a worker's thread.
fn append_join(text: &mut Bytes, worker: u32) -> Result<(), Memory>
    requires { 1 ≤ worker }
    ensures { OnOk result (text.new ≡ text.old ++ join_text worker) }
{
    append_between(text, b"  pthread_join(t[", worker - 1, b"], NULL);\n")
}

/// Adds the lines that join the workers' threads.
fn append_joins(text: &mut Bytes, seed: u32) -> Result<(), Memory>
    ensures { OnOk result (text.new ≡ text.old ++ flat_map join_text (one_to (workers_of seed))) }
{
    for worker in 0..workers(seed) {
        append_join(text, worker + 1)?;
    }
    Ok(())
}

/// Adds the first lines of `main`.
fn append_main_head(text: &mut Bytes, workers: u32) -> Result<(), Memory>
    ensures { OnOk result (text.new ≡ text.old ++ main_head workers) }
{
    append_between(text, b"int main(void) {\n  pthread_t t[", workers, b"];\n")
}

/// Adds the last lines of `main`, which assert the total.
fn append_main_end(text: &mut Bytes, total: u32) -> Result<(), Memory>
    ensures { OnOk result (text.new ≡ text.old ++ main_end total) }
{
    append_between(text, b"  assert(total == ", total, b"u);\n  return 0;\n}\n")
}

/// Adds `main`.
fn append_main(text: &mut Bytes, seed: u32) -> Result<(), Memory>
    ensures { OnOk result (text.new ≡ text.old ++ main_text seed) }
{
    append_main_head(text, workers(seed))?;
    append_creates(text, seed)?;
    append_joins(text, seed)?;
    append_main_end(text, asserted(seed))
}

/// The text of a seed's program.
pub fn generate(alloc: Global, seed: u32) -> Result<Bytes, Memory>
    ensures { IfOk result (λ text. text ≡ generated_text seed) }
{
    let mut text = Bytes::new(alloc);
    text.append(
        b"#include <pthread.h>\n#include <assert.h>\npthread_mutex_t m = PTHREAD_MUTEX_INITIALIZER;\nunsigned int total;\n",
    )?;
    append_workers(&mut text, seed)?;
    append_main(&mut text, seed)?;
    Ok(text)
}
