//! The calls of the cryptography crates that bench/crypto measures from C, each made many times.
use aes_ctr::{Key, Key128, Key256, apply_stream};
use replay_window::{Seen, Window};

/// AES-128's stream on the bytes, `turns` times.
#[unsafe(no_mangle)]
pub extern "C" fn bench_stream_128(key: &[u8; 16], front: &[u8; 12], turns: u32, bytes: &mut [u8]) {
    let key = Key::Short(Key128::new(key));
    for _ in 0..turns {
        apply_stream(&key, front, 1, bytes);
    }
}

/// AES-256's stream on the bytes, `turns` times.
#[unsafe(no_mangle)]
pub extern "C" fn bench_stream_256(key: &[u8; 32], front: &[u8; 12], turns: u32, bytes: &mut [u8]) {
    let key = Key::Long(Key256::new(key));
    for _ in 0..turns {
        apply_stream(&key, front, 1, bytes);
    }
}

/// Expands AES-128's key `turns` times, each from a block under the key before.
#[unsafe(no_mangle)]
pub extern "C" fn bench_key_128(turns: u32, key: &mut [u8; 16]) {
    for _ in 0..turns {
        *key = Key128::new(key).encrypt_block(key);
    }
}

/// Signs the bytes `turns` times, each under the signature before.
#[unsafe(no_mangle)]
pub extern "C" fn bench_sign(bytes: &[u8], turns: u32, signature: &mut [u8; 32]) {
    for _ in 0..turns {
        *signature = hmac_sign::sign(&*signature, bytes);
    }
}

/// Tests the numbers below `turns`, and counts those that are fresh. Every number up to 500 was taken.
#[unsafe(no_mangle)]
pub extern "C" fn bench_test(turns: u32) -> u32 {
    let mut window = Window::new();
    for n in 0..501 {
        take_fresh(&mut window, n);
    }
    let mut fresh: u32 = 0;
    for n in 0..turns {
        if matches!(window.test(n % 1024), Seen::Fresh) {
            fresh = fresh.wrapping_add(1);
        }
    }
    fresh
}

/// Tests the numbers below `turns`, takes those that are fresh, and counts them.
#[unsafe(no_mangle)]
pub extern "C" fn bench_take(turns: u32) -> u32 {
    let mut window = Window::new();
    let mut fresh: u32 = 0;
    for n in 0..turns {
        if take_fresh(&mut window, n) {
            fresh = fresh.wrapping_add(1);
        }
    }
    fresh
}

// Takes the number if it is fresh.
fn take_fresh(window: &mut Window, n: u32) -> bool {
    match window.test(n) {
        Seen::Fresh => {
            window.take(n);
            true
        }
        _ => false,
    }
}
