//! Reading headers.
use pe_fields::parse_dictionary;
use std::alloc::{AllocError, Global};

/// A header as sites send it: 452 bytes, 13 members.
const HEADER: &[u8] = b"accelerometer=(), autoplay=(self \"https://player.example\"), camera=(), \
clipboard-read=(self), clipboard-write=(self), display-capture=(), fullscreen=(self \"https://video.example\" \
\"https://maps.example\"), geolocation=(self \"https://maps.example\" \"https://delivery.example\"), \
gyroscope=(), microphone=(), midi=(), payment=(self \"https://pay.example\" \"https://checkout.pay.example\" \
\"https://wallet.example\"), picture-in-picture=*;report-to=policy-endpoint";

/// How many members are read in so many headers.
pub fn members_read(alloc: Global, count: u32) -> Result<u64, AllocError> {
    let mut members = 0u64;
    for _ in 0..count {
        if let Some(dictionary) = parse_dictionary(alloc, HEADER)? {
            if dictionary.get(b"payment").is_some() {
                members = members.saturating_add(1);
            }
        }
    }
    Ok(members)
}
