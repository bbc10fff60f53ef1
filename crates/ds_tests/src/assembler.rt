//! What a source assembles to, where no run shows it.
use ds_asm::{AsmFault, Image, assemble};
use std::alloc::Global;

/// A page of an image, put over other bytes.
fn page_of(image: &Image, part: u8) -> [u8; 4096] {
    let mut page = [0xAAu8; 4096];
    image.page(part, &mut page);
    page
}

/// Whether parts past the end of an image are zero.
fn ends_in_zeros(image: &Image) -> bool {
    let mut zero = true;
    for part in [2, 15, 16, 255u8] {
        zero = zero && page_of(image, part) == [0; 4096];
    }
    zero
}

/// Whether an image of 4,097 bytes has the last three in two pages, and zeros after them.
fn has_two_pages(image: &Image) -> bool {
    let page = page_of(image, 0);
    let first = page[0] == 0 && page[4093] == 0 && page[4094] == 1 && page[4095] == 2;
    let page = page_of(image, 1);
    let second = page[0] == 253 && page[1] == 0 && page[4095] == 0;
    image.len() == 4097 && first && second && ends_in_zeros(image)
}

/// Whether a source of 4,097 bytes is assembled so.
fn fills_two_pages(alloc: Global) -> bool {
    let text = b".space 4094\n.byte 1\n.byte 2\n.byte -3\n".as_slice();
    match assemble(alloc, text) {
        Ok(image) => has_two_pages(&image),
        Err(_) => false,
    }
}

#[test]
fn a_page_past_the_end_is_zero(rt: HostRuntime) {
    assert!(rt; fills_two_pages(rt.alloc()));
}

/// Whether each front of a text has an image of 20 bytes at most or a fault, and memory for it.
fn has_fronts(alloc: Global, text: &[u8]) -> bool {
    let mut right = true;
    for end in 0..text.len() {
        right = right
            && match assemble(alloc, &text[..end]) {
                Ok(image) => image.len() <= 20,
                Err(fault) => fault != AsmFault::Memory,
            };
    }
    right
}

#[test]
fn each_front_of_a_source_has_an_image_or_a_fault(rt: HostRuntime) {
    let good =
        b"x: addu $a0,$sp,$ra # hi\n\tbeq $0, $0 ,x\r\n nop\n.word x\n lw $1, -4 ( $2 )\n".as_slice();
    let bad = b".byte -128\ny: .space 3\nj y\nj z\n.word -2147483649\ny:".as_slice();
    assert!(rt; has_fronts(rt.alloc(), good) && has_fronts(rt.alloc(), bad));
}
