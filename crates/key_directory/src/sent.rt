//! Threads may share a directory, and hand passes on.
use crate::directory::Directory;
use crate::key_test::KeyTest;
use crate::pass::KeyPass;

fn is_shared<T: Send + Sync>(value: &T) {
    let _ = value;
}

fn is_sent<T: Send>(value: &T) {
    let _ = value;
}

/// That this is proved shows both, for every test that threads may share.
pub fn threads_may_share<K: KeyTest + Send + Sync>(directory: &Directory<K>, pass: &KeyPass<K>) {
    is_shared(directory);
    is_sent(pass);
}
