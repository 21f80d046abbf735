ghost use Rattle.std.specs.Prelude.{◌≡◌, find, bytes_eq, map};
ghost use Rattle.lz_scopes.specs.KnownNames as spec;

use lz_tree::KnownName;

/// The bytes of a known name.
fn known_text(name: KnownName) -> &'static str
    ensures { result.now ≡ spec.known_text name }
{
    match name {
        KnownName::Assert => "assert",
        KnownName::Assume => "__VERIFIER_assume",
        KnownName::NondetInt => "__VERIFIER_nondet_int",
        KnownName::NondetUint => "__VERIFIER_nondet_uint",
        KnownName::Error => "__VERIFIER_error",
        KnownName::ReachError => "reach_error",
        KnownName::Abort => "abort",
        KnownName::AtomicBegin => "__VERIFIER_atomic_begin",
        KnownName::AtomicEnd => "__VERIFIER_atomic_end",
        KnownName::Create => "pthread_create",
        KnownName::Join => "pthread_join",
        KnownName::Exit => "pthread_exit",
        KnownName::MutexInit => "pthread_mutex_init",
        KnownName::MutexDestroy => "pthread_mutex_destroy",
        KnownName::MutexLock => "pthread_mutex_lock",
        KnownName::MutexUnlock => "pthread_mutex_unlock",
        KnownName::CondInit => "pthread_cond_init",
        KnownName::CondDestroy => "pthread_cond_destroy",
        KnownName::CondWait => "pthread_cond_wait",
        KnownName::CondSignal => "pthread_cond_signal",
        KnownName::CondBroadcast => "pthread_cond_broadcast",
        KnownName::Printf => "printf",
    }
}

/// The known names.
const KNOWN_NAMES: [KnownName; 22] = [
    KnownName::Assert,
    KnownName::Assume,
    KnownName::NondetInt,
    KnownName::NondetUint,
    KnownName::Error,
    KnownName::ReachError,
    KnownName::Abort,
    KnownName::AtomicBegin,
    KnownName::AtomicEnd,
    KnownName::Create,
    KnownName::Join,
    KnownName::Exit,
    KnownName::MutexInit,
    KnownName::MutexDestroy,
    KnownName::MutexLock,
    KnownName::MutexUnlock,
    KnownName::CondInit,
    KnownName::CondDestroy,
    KnownName::CondWait,
    KnownName::CondSignal,
    KnownName::CondBroadcast,
    KnownName::Printf,
];

/// The known name among some that has the bytes.
fn find_known(names: &[KnownName], bytes: &str) -> Option<KnownName>
    ensures { result ≡ find (λ name. bytes_eq bytes.now (spec.known_text name)) names.now }
{
    names
        .iter()
        .copied()
        .find(|name| bytes == known_text(*name))
}

/// The known name that has the bytes.
#[tactic(auto, unfolding(crate::specs::KnownNames::known, crate::specs::KnownNames::known_names))]
pub fn known(bytes: &str) -> Option<KnownName>
    ensures { result ≡ spec.known bytes.now }
{
    find_known(&KNOWN_NAMES, bytes)
}

/// Whether a file may not take the name for something of its own.
pub fn is_taken(known: Option<KnownName>) -> bool
    ensures { result ≡ spec.is_taken known }
{
    match known {
        None => false,
        Some(KnownName::ReachError) => false,
        Some(_) => true,
    }
}
