//! A writer of images into memory.

ghost use Rattle.std.specs.Prelude.{◌≡◌, [], map, IfOk, OnOk};
ghost use Rattle.gimli_lines_write_bytes.specs.ByteOrders.{is_big_endian};
ghost use Rattle.gimli_lines_write_bytes.specs.Fixed.{number_bytes};
ghost use Rattle.linemap_elf.specs.SpelledImages.{spelled_fields};
ghost use Rattle.linemap_elf.specs.WrittenImages.{field_of, append};

use crate::field::Field;
use addr2line_elf::class::Class;
use gimli_lines_write_bytes::{Endianity, RunTimeEndian};
use std::alloc::{AllocError, Global};
use std::marker::Model;

/// The bytes of an image so far, its class, and the order of a number's bytes.
#[derive(Debug, Drop)]
pub struct ImageWriter {
    bytes: Vec<u8>,
    class: Class,
    endian: RunTimeEndian,
}

impl Model for ImageWriter {
    ghost use Rattle.gimli_lines_write_bytes.specs.ByteOrders.{is_big_endian};
    ghost use Rattle.linemap_elf.specs.WrittenImages.{ImageBytes};

    ghost Value = { ImageBytes };

    ghost view = { λ w. record {
      bytes = w.bytes.items;
      class = w.class;
      is_big = is_big_endian w.endian;
    } };
}

impl ImageWriter {
    // A writer with no bytes yet, and room for a number of them.
    pub(crate) fn with_capacity(
        alloc: Global,
        class: Class,
        endian: RunTimeEndian,
        size: usize,
    ) -> Result<ImageWriter, AllocError>
        ensures { IfOk result (λ w. w
            ≡ record { bytes = []; class = class; is_big = is_big_endian endian }) }
    {
        Ok(ImageWriter {
            bytes: Vec::with_capacity(alloc, size)?,
            class,
            endian,
        })
    }

    // The class of the image.
    pub(crate) fn class(&self) -> Class
        ensures { result ≡ self.now.class }
    {
        self.class
    }

    // The order of a number's bytes.
    pub(crate) fn endian(&self) -> RunTimeEndian
        ensures { is_big_endian result ≡ self.now.is_big }
    {
        self.endian
    }

    // The bytes written.
    pub(crate) fn into_vec(self) -> Vec<u8>
        ensures { result.items ≡ self.bytes }
    {
        self.bytes
    }

    // Writes some bytes.
    pub(crate) fn write(&mut self, bytes: &[u8]) -> Result<(), AllocError>
        ensures { OnOk result (self.new ≡ append bytes.now self.old) }
    {
        self.bytes.extend_from_slice(bytes)
    }

    // Writes a field.
    fn field(&mut self, field: Field) -> Result<(), AllocError>
        ensures { OnOk result (self.new
            ≡ append (number_bytes self.old.is_big (field_of field).width (field_of field).value)
            self.old) }
    {
        match field {
            Field::Half(n) => {
                let mut bytes = [0; 2];
                self.endian.write_u16(&mut bytes, n);
                self.write(&bytes)
            }
            Field::Word(n) => {
                let mut bytes = [0; 4];
                self.endian.write_u32(&mut bytes, n);
                self.write(&bytes)
            }
            Field::Xword(n) => {
                let mut bytes = [0; 8];
                self.endian.write_u64(&mut bytes, n);
                self.write(&bytes)
            }
        }
    }

    // Writes fields one after the other.
    pub(crate) fn fields(&mut self, fields: &[Field]) -> Result<(), AllocError>
        ensures { OnOk result (self.new
            ≡ append (spelled_fields self.old.is_big (map field_of fields.now)) self.old) }
    {
        for field in fields {
            self.field(*field)?;
        }
        Ok(())
    }
}
