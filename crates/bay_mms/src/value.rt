// Writing the data and the type of a row of the tree.
ghost use Rattle.std.specs.Prelude.{◌≡◌};
ghost use Rattle.bay_ber.specs.EncoderBuffers.{buffer_with};
ghost use Rattle.bay_tree.specs.Rows.{IsHandle};
ghost use Rattle.bay_mms.specs.Data.{datum_text};
ghost use Rattle.bay_mms.specs.Types.{type_text};
ghost use Rattle.bay_mms.specs.Nodes.{data_at, type_at};

use crate::client_view::ClientView;
use crate::leaf::{put_leaf, put_leaf_type};
use bay_ber::tag::Tag;
use bay_ber::writer::Writer;
use bay_tree::tree::{Handle, Tree};

/// Appends the data of a row (IEC 61850-8-1, the mapping of values to MMS data).
pub fn write_value(writer: &mut Writer, seen: &ClientView<'_>, handle: Handle)
    requires { IsHandle seen.now handle }
    ensures { writer.new ≡ buffer_with writer.old (datum_text (data_at seen.now handle)) }
{
    match seen.get(handle) {
        Some(leaf) => put_leaf(writer, leaf),
        None => {
            let start = writer.open(Tag::context_constructed(2));
            let mut next = seen.below(handle);
            while let Some(part) = next {
                write_value(writer, seen, part);
                next = seen.beside(part);
            }
            writer.close(start);
        }
    }
}

/// Appends the type of a row (ISO 9506-2, TypeSpecification).
pub fn write_type(writer: &mut Writer, tree: &Tree, handle: Handle)
    requires { IsHandle tree.now handle }
    ensures { writer.new ≡ buffer_with writer.old (type_text (type_at tree.now handle)) }
{
    match tree.get(handle) {
        Some(leaf) => put_leaf_type(writer, leaf),
        None => {
            let structure = writer.open(Tag::context_constructed(2));
            let components = writer.open(Tag::context_constructed(1));
            let mut next = tree.below(handle);
            while let Some(part) = next {
                let component = writer.open(Tag::sequence());
                writer.text(Tag::context(0), tree.word(part));
                let inner = writer.open(Tag::context_constructed(1));
                write_type(writer, tree, part);
                writer.close(inner);
                writer.close(component);
                next = tree.beside(part);
            }
            writer.close(components);
            writer.close(structure);
        }
    }
}
